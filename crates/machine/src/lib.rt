// The whole machine as a definition: see specs/. No code.
#![tactic(auto)]
