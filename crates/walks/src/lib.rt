// Laws for proofs by hand, in proofs/: what a walk of a function's code goes by where it has many parameters, or lends a slice on. No code.
#![tactic(auto)]
