#![tactic(auto)]

// That controllers which keep to their assured shares do not notice each other; no code.
