// What the desk's questions promise beyond their contracts: each number is given exactly when the paper says so, what the answers
// mean, and no two answers are allowed for the same book. It holds no code: specs/ and proofs/ have the
// theorems.
#![tactic(auto)]
