// How many readings there are, with any rules or with some rule at some position, and which of them is the k-th. Definitions and theorems alone.
#![tactic(auto)]
