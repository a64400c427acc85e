// No code: when two commands agree, and what is claimed of what is planned from them, in specs/; the proofs of it in proofs/.

#![tactic(auto)]
