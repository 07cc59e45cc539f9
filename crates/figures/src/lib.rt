// No code: document 01's starred figures as one table, and the proof that every one of them holds; its
// figures of the walk, on epsilon and on lots, and two searches.
#![tactic(auto)]
