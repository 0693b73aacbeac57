#![tactic(auto)]

// States as functions of the origin: what a move does there, which moves commute, and moves made again. No code.
