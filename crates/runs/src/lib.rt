// No code: runs of any calls, over a plain list and taken back (specs/ and proofs/).
#![tactic(auto)]
