#![tactic(auto)]

// A controller that follows a plan within its assured share is granted every call: definitions and theorems alone, no code.
