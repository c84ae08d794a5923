// No code: what is shown of runs of the passes stands in specs/ and proofs/.
#![tactic(auto)]
