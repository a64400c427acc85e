// No code: the laws of a schedule, in proofs/.

#![tactic(auto)]
