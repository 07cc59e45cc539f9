// No code: demand 2's last sentence, that raw moments remade from their mean and their centred ones
// are the first ones.
#![tactic(auto)]
