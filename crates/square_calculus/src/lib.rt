// The mathematics of an envelope that varies with time: its closure, rows, the lowest loss; no functions.
#![tactic(auto)]
