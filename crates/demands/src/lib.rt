// What the plant demands, as theorems on the calls: statements in specs/, proofs in proofs/, and no function.
#![tactic(auto)]
