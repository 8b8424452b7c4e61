// No code: 01's marked cases and the wrong programs, over the promises of the calls (specs/ and proofs/).
#![tactic(auto)]
