// Laws of points counted box by box; no functions.
#![tactic(auto)]
