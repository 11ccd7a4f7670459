// Which numbers a refusal can have, so that every answer can be read back from its code. Theorems alone.
#![tactic(auto)]
