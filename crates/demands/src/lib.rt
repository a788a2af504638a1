// What the definition of a frame guarantees by itself, without any code: theorems alone, in proofs/.
#![tactic(auto)]
