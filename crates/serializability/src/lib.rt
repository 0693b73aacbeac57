#![tactic(auto)]

// Demand 3: every accepted log has a serial log. No code: see specs/Statement.antt.
