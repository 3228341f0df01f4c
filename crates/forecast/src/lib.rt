// What rebuilding alone would save (request Q-6): its definitions and promises stand in specs/, and their proofs here. Code that works it
// out is in `peeling`. There is no code here.
#![tactic(auto)]
