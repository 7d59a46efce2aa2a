#![tactic(auto)]

// The demands R-1, R-2 and R-3 of docs/REQUIREMENTS.md, a theorem each, assembled from the crates below: no code.
