// No code: what is shown of the ways in stands in specs/ and proofs/.
#![tactic(auto)]
