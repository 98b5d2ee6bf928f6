// What is proved of the definitions of the exchange: no code.
#![tactic(auto)]
