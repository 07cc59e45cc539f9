// No code: what the answers about f64 are, and the laws of those definitions. They stand below the
// code so that an edit of the code does not prove them again.
#![tactic(auto)]
