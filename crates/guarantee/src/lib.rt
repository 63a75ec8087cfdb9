// Demand 3 over whole lists of calls: specs/Guarantee.antt states it, proofs/ proves it. The crate has no code of its own.
#![tactic(auto)]
