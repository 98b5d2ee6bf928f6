// Theory only: the marked cases are in specs/.
#![tactic(auto)]
