// What the functions open to C promise, taken together: definitions in specs/, laws in proofs/, no functions.
#![tactic(auto)]
