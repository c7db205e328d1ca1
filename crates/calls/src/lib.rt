// Theorems on the calls themselves, through their promises, in specs/: document 00's three demands, requests d, g and k, the reports, and that a run in
// stretches is the run. No code.
#![tactic(auto)]
