// No code: the four walks over a tree, what they find and how many slots they visit (specs/ and proofs/).
#![tactic(auto)]
