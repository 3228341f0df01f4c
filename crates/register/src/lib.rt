// The register that works a line's CRC out, sixteen bytes at a step. It is a number below 2^31 with place 512 lowest.
// Definitions in specs/, laws in proofs/. There is no code here.
#![tactic(auto)]
