// No code: what is shown of the rules stands in specs/ and proofs/.
#![tactic(auto)]
