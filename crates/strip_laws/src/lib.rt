// No code: the laws of reading a strip, in proofs/.

#![tactic(auto)]
