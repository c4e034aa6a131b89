// What a message moves: for any weight of an order, what its verdict takes out of the book and what it puts in. It holds no code:
// specs/ and proofs/ have the laws.
#![tactic(auto)]
