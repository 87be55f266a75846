// What is proved of every run of two parties at one table; it has no code.
#![tactic(auto)]
