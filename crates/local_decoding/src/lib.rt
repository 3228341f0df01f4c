// One line wanted during the show (request Q-4): its definition and promises stand in specs/, and their proofs here. Code that reads it is
// in `lookup`. There is no code here.
#![tactic(auto)]
