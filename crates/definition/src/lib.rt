// What is right, in specs/: Durbin and Koopman's recursions under document 01's rules. No code.
#![tactic(auto)]
