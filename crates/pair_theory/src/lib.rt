// Recognition by sets of pairs of nonterminals, section 4 of the paper. Definitions and theorems alone.
#![tactic(auto)]
