// Laws of points in cubes and of the sum of resolution gaps; no functions.
#![tactic(auto)]
