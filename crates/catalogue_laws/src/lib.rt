// Laws of catalogues. No code.
#![tactic(auto)]
