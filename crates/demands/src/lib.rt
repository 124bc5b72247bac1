// The three demands at the words and bytes of `session`: statements in specs/, proofs in proofs/,
// no function.

#![tactic(auto)]
