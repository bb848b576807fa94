// Busy server, same record (document 02, F-13): see specs/Busy.antt and proofs/Same.antt. No code.
#![tactic(auto)]
