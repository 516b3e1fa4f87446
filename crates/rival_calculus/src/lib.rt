// The rules of document 01's list that anyone's totals may break, and the first that is broken; no functions.
#![tactic(auto)]
