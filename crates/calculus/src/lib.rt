// The mathematics of the least-loss regulator: definitions in specs/, laws in proofs/, no functions.
#![tactic(auto)]
