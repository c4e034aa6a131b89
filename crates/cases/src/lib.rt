// 01's starred cases ('Cases by the book') as one table with one proved claim. It holds no code: specs/ has the table and what
// a row claims, proofs/ that each row holds.
#![tactic(auto)]
