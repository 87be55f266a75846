// The starred rows of the bench table, as one statement. There is no code here: each row is about a definition.
#![tactic(auto)]
