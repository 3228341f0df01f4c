// The single reading in the paper's order (request Q-7): its definitions and promises stand in specs/, their proofs in proofs/. The bodies
// that follow it are in `single`, and in `sweep` and `reading`. There is no code here.
#![tactic(auto)]
