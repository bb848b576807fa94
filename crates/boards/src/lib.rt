// Every timer of every board that calls lead to follows RM0440's machine: theorems only, see specs/ and proofs/. No code.
#![tactic(auto)]
