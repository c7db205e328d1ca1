// What document 00 asks for, in specs/: theorems over crates/definition, for all sizes and all inputs. No code.
#![tactic(auto)]
