// Demand 3 as a theorem about the definitions of `rules`, and the law of the walker: specs/ has what they say, proofs/ why they hold. No code.

#![tactic(auto)]
