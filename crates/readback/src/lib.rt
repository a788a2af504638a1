// What the writer's definition writes, the reader's definition reads back: theorems alone, in proofs/.
#![tactic(auto)]
