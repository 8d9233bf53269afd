// Words and the tree that they spell are fired alike: definitions in specs/, laws in proofs/, and no function.
#![tactic(auto)]
