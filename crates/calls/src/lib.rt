// The calls of prover, verifier and extractor as definitions, with what is proved of every run of calls: no code.
#![tactic(auto)]
