// Laws of lists and of Bools, for every element type. Definitions and theorems alone.
#![tactic(auto)]
