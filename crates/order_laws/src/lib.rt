// Laws of orders: primitive polynomials, the full cycle, the step. No functions.
#![tactic(auto)]
