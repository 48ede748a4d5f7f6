// Laws of writing over a slice, over the definitions. No functions.
#![tactic(auto)]
