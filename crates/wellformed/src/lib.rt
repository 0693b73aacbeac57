#![tactic(auto)]

// Theorems about the definitions of the crate semantics. No code: see specs/.
