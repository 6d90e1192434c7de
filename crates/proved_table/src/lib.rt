// The proved table: the table is specs/Cases.antt, and the one statement over it is
// proofs/ProvedTable.antt. There is nothing to run.

#![tactic(auto)]
