// No code: display lists in lent space as lists of commands, in specs/, and their laws, in proofs/.

#![tactic(auto)]
