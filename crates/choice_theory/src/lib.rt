// A history has more than one reading exactly when it has a choice. Definitions and theorems alone.
#![tactic(auto)]
