// Which nonterminals derive the rest of each level, and how the first and the next reading and the kept rules follow from that.
// Definitions and theorems alone: the cores above are proved with them.
#![tactic(auto)]
