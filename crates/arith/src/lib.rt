// Laws of whole numbers for the proofs of the other crates, and no code: definitions are in specs/, laws in proofs/.

#![tactic(auto)]
