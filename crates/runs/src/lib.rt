// The exchange of document 01: definitions and laws, no code.
#![tactic(auto)]
