// What a file said before a request changed its reading; every file that passed then keeps its meaning. Theorems alone.
#![tactic(auto)]
