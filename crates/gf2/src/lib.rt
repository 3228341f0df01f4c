// Pure theory of words of bits, for any width: definitions in specs/, laws in proofs/. There is no code here.
#![tactic(auto)]
