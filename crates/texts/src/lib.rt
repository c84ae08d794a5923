// No code: what is printed stands in specs/, and what is shown of it in proofs/.
#![tactic(auto)]
