// The computed sine and cosine are monotone over angles as far apart as those of two offsets are. No code: the statements are in specs/, what
// shows them in proofs/. docs/INVERSE.md has the argument.

#![tactic(auto)]
