// No code: a book as a plain list, gone through from top to bottom, and the laws about such lists (specs/ and proofs/).
#![tactic(auto)]
