// The mathematics of the shared port: what it sends, schedules by deadline, envelopes that meet them; no functions.
#![tactic(auto)]
