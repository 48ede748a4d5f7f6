// Laws of answers, over the definitions. No functions.
#![tactic(auto)]
