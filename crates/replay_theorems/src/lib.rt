// What the replay program writes, whole: however its input arrives and however its buffers fill. It holds no code: specs/ and
// proofs/ have the theorems.
#![tactic(auto)]
