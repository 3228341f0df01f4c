// The rows of a table of samples, and what each claims: of `samples` (document 01's) and of `cases`. There is no code here.
#![tactic(auto)]
