// What holds of atlas files: nothing is accepted that its own sheet does not give, a cut file is refused, reading and writing undo
// each other. No code: statements in specs/, proofs in proofs/.

#![tactic(auto)]
