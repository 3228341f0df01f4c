// Document 01's starred samples: one table in specs/, one theorem over it in proofs/. There is no code here.
#![tactic(auto)]
