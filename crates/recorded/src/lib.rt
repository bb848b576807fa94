// Demand 3 of the books that calls leave: see specs/Recorded.antt and proofs/Joined.antt. No code.
#![tactic(auto)]
