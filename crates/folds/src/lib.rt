// Choice, sums and tests over the numbers below n, with which the other definitions are written, and their laws:
// specs/Fold.antt, proofs/Folds.antt. The crate has no code of its own.
#![tactic(auto)]
