// Theory only: the computed trials of the exchange are in specs/.
#![tactic(auto)]
