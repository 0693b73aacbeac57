#![tactic(auto)]

// What the code of the serial log cites of an accepted log. No code: see specs/Facts.antt.
