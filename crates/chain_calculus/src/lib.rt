// The mathematics of chains of slots: what one amounts to, the one that is found, those that are accepted; no functions.
#![tactic(auto)]
