// Words and numbers as text: in specs/ and proofs/ the definitions and their laws. The functions are the
// crates text_read and text_write.
#![tactic(auto)]
