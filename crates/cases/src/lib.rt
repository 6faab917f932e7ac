// The cases that document 01 marks *, all in one table: proofs/Table.antt. There is no code here.

#![tactic(auto)]
