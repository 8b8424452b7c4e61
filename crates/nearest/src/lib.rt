// No code: what the walks for the smallest and the largest x have still to walk, and what each turn of theirs makes of it (specs/ and proofs/).
#![tactic(auto)]
