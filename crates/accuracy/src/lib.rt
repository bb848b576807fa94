// Demand 3 as a theorem about the machine's definition: see specs/Claim.antt and specs/Accurate.antt. No code.
#![tactic(auto)]
