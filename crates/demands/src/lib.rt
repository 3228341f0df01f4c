// The customer's demands as statements in specs/, over what the entry points are defined to give, and their proofs. There is no code here.
#![tactic(auto)]
