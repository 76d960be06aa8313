// The shared definitions and laws: specs/ says what they mean, proofs/ what holds of them. There is no code here.
#![tactic(auto)]
