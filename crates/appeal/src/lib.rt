// Two stations, one log (document 02, §9), of sessions as in demand 3: statements in specs/, proofs
// in proofs/, no function.

#![tactic(auto)]
