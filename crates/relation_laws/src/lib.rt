// Laws of relations between digit rows and of the search for the lightest; no functions.
#![tactic(auto)]
