// What is computed, whatever the kind, in specs only: rules 1 to 7 and their examples, slices and what is stored in them, pieces and cuts,
// lists that are filled in order; and the laws of them.
#![tactic(auto)]
