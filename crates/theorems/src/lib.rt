#![tactic(auto)]

// Statements in specs/, proofs in proofs/: what follows from the model's definitions.
