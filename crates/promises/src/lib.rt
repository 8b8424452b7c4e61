// No code: what each call promises on a pool that has been checked (specs/ and proofs/).
#![tactic(auto)]
