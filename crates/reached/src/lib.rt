// What is proved of every state that a run of calls reaches from a fresh filter; it has no code.
#![tactic(auto)]
