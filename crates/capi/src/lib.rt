// The fits for C (include/woddirme.h): a slice is a pointer and a length.
#![tactic(auto)]

pub mod fits; // fits.rt: one search and several runs
