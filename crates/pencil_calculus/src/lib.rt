// The mathematics of the pencil version, and all short traces in order; no functions.
#![tactic(auto)]
