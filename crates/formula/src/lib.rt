// No code: formulas over once-rounded operations as data, programs of them, what is met when they
// run, and the laws of one operation, of a formula and of a program.
#![tactic(auto)]
