#![tactic(auto)]

// Facts about lists, for every element type and length. No code: see specs/.
