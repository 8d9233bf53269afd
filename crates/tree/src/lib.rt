// The mathematics of the trees that words spell: definitions in specs/, laws in proofs/, and no function.
#![tactic(auto)]
