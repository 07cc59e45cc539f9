// Tables of known values, for the definitions of other crates. There is no code: the definitions are
// in specs/.
#![tactic(auto)]
