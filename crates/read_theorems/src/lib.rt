// What reading a message promises beyond its contract: each refusal is given exactly when the paper says so, an accepted
// message's numbers are its fields, and no two answers are allowed for the same bytes. It holds no code: specs/ and proofs/
// have the theorems.
#![tactic(auto)]
