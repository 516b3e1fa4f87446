// The mathematics of the trace that loses most within its limits; no functions.
#![tactic(auto)]
