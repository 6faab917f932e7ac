#![tactic(auto)]

// The one lemma behind document 01's "two answers allowed for an input are equal": proofs/Fixes.antt.
// Every crate of the product that has code cites it for its public calls. There is no code here.
