// What the readers accept. Of tree files: proofs/Kept.antt (an accepted tree keeps its rules), Complete.antt (every configuration that
// keeps them is read from its text, specs/TreeText.antt), Order.antt (acc lines in any order), Exactly.antt and Refusals.antt. Of traces:
// TraceExactly.antt and TraceRefusals.antt. The crate has no code of its own.
#![tactic(auto)]
