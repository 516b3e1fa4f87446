// The mathematics of certificates: links that say why nobody could have admitted or departed more; no functions.
#![tactic(auto)]
