// RM0440's general-purpose timer, as definitions only: see specs/. No code.
#![tactic(auto)]
