// The mathematics of the smallest limits at which no more than so many packets are lost; no functions.
#![tactic(auto)]
