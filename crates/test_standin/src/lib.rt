// Theory only: a cheap stand-in for SHAKE256, and what opens the definitions of the exchange.
#![tactic(auto)]
