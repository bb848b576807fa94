// The timer of crate tim against RM0440's stepping counter: theorems only, see specs/. No code.
#![tactic(auto)]
