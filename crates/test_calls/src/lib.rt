// Theory only: the computed trials of the calls are in specs/.
#![tactic(auto)]
