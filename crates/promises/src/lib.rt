// What the line code promises to the layers above, and section III-C's two claims on damaged lines: statements in specs/, proofs in
// proofs/. There is no code here.
#![tactic(auto)]
