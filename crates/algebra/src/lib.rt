// No code: the definitions of specs/ and the laws of proofs/ are for the proofs of other crates.
#![tactic(auto)]
