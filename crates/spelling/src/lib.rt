// Words that spell a tree: sizes and places, what a write leaves, the soundness test. Laws of the definitions, no code.
#![tactic(auto)]
