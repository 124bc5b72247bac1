// Demands 2 and 3 as a model, over any world that moves in steps: definitions in specs/, proofs in
// proofs/, no function. The crate demands shows that the calls of session make this model's moves.

#![tactic(auto)]
