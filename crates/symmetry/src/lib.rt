// What holds of every run of the estimator's calls. There is no code here: the statements are about the calls of `bias`.
#![tactic(auto)]
