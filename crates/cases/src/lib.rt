// Cases beside the starred samples, and the report of document 01, by computation from the definitions. There is no code here.
#![tactic(auto)]
