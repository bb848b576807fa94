// The pin on record is the output of RM0440's machine at every cycle: theorems only, see specs/ and proofs/. No code.
#![tactic(auto)]
