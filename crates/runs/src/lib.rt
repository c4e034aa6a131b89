// What holds over any run of messages from tables made fresh. It holds no code: specs/Statements.antt has what is promised, Runs.antt
// and Ledger.antt the words it is said in, and the other files the proofs.
#![tactic(auto)]
