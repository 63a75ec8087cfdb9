// A run is a list of calls: specs/Calls.antt names the calls and states it, proofs/ proves it, and so demand 3 speaks of every
// run. The crate has no code of its own.
#![tactic(auto)]
