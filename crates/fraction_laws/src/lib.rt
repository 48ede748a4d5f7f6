// Laws of Euclid's algorithm on binary polynomials and of the tree of pairs, in specs/; no code.
#![tactic(auto)]
