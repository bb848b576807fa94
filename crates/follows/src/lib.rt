// The port's timer against RM0440's machine: the view, the statement and theorems, see specs/ and proofs/. No code.
#![tactic(auto)]
