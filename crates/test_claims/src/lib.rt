// Theory only: concrete cases that the claims speak of, and wrong programs of which they do not hold.
#![tactic(auto)]
