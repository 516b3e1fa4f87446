// The mathematics of leaky buckets: their envelope, the device of levels, the bound by single buckets; no functions.
#![tactic(auto)]
