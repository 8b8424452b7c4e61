// No code: the tree, how it changes, and the laws about it (specs/ and proofs/).
#![tactic(auto)]
