// No code: trees, circles and evaluators stand in specs/ and proofs/.
#![tactic(auto)]
