// Two sources of numbers, elements and their bytes, say the same of a file. Theorems alone.
#![tactic(auto)]
