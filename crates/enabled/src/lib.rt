#![tactic(auto)]

// Theorems about the list of open moves. No code: see specs/.
