// Laws of binary polynomials; no functions.
#![tactic(auto)]
