// The set at a position, choices and stop marks: what they are. Definitions and theorems alone.
#![tactic(auto)]
