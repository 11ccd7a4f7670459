// A list of the calls first reading and next reading on one buffer, and what it gives. Definitions and theorems alone.
#![tactic(auto)]
