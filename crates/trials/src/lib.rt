// No code: what is tried stands in specs/ and proofs/.
#![tactic(auto)]
