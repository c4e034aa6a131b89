// What applying a message promises beyond its contract: each number is given exactly when the paper says so, a refused call changes
// nothing and no call changes more than its message is about, and no two ends of a call are allowed. It holds no code: specs/ and
// proofs/ have the theorems.
#![tactic(auto)]
