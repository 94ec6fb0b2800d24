// No code: the laws of proofs/ are for the proofs of cylinder.
#![tactic(auto)]
