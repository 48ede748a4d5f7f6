// Laws of the ranked list: the tree's accepted pairs are all accepted pairs, and pages walked through are the list; no functions.
#![tactic(auto)]
