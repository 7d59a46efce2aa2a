#![tactic(auto)]

// The examples E1 to E11, as one proved table: no code.
