// No code: document 01's checked examples, stated in specs/ and proved of the definitions in proofs/.
#![tactic(auto)]
