// Laws about the definition and about doubles, in specs/, cited by proofs. No code.
#![tactic(auto)]
