// Lists of slot calls on any machine that takes slots: which are accepted, and what they are to answer; no functions.
#![tactic(auto)]
