// What each reader relies on, as six statements about the calls: specs/ has them, proofs/ proves them. Theory only, no code.
#![tactic(auto)]
