// The starred figures of document 01, proved from the definitions: specs/Figures.antt has the table, proofs/Figures.antt the
// claim that each holds. Figures for further clauses: Clauses.antt; for the return delay of document 02: Returns.antt;
// for its channels: Channels.antt.
#![tactic(auto)]
