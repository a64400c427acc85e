// No code: pages as bytes, what both panels show of them, and a planner that fails, in specs/; that it is so, in proofs/.

#![tactic(auto)]
