// No code: the cells of a pool, when it is sound, and what stands in them after a change (specs/ and proofs/).
#![tactic(auto)]
