#![tactic(auto)]

// Job sheets as they were before records had arrivals, and how they are put into the layout of today. No code.
