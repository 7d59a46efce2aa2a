#![tactic(auto)]

// What a plan is, which plans are valid, and which of them is the answer: definitions and theory alone, no code.
