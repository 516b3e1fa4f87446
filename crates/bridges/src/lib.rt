// What two parts give alike, and what one part hands to another: a profile and its table, a square and its table, runs and live
// regulators that feed a port; no functions.
#![tactic(auto)]
