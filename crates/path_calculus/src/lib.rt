// The mathematics of regulators in a row: the merged envelope, stages, the lowest loss; no functions.
#![tactic(auto)]
