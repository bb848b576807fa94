// Demand 3 of the duty report: see specs/Planned.antt and proofs/Reported.antt. No code.
#![tactic(auto)]
