// Document 01's proof table: the rows marked P, one list in specs/Rows.antt with one proof in
// proofs/Table.antt. There is no code here: the rows speak of the definitions.
#![tactic(auto)]
