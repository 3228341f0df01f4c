// Pure theory of the SuDoku steps, over any list of groups and any line layer: definitions in specs/, laws in proofs/. There is no code here.
#![tactic(auto)]
