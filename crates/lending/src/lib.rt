#![tactic(auto)]

// What walks by hand of code that holds a lent slice have in common; there is no code here.
//
//     proofs/Lending    a lent slice is lent on for the time of a call, and is had again with what the call left in it
//     proofs/Meeting    the tokens of a loan that ends with the call
//     proofs/Lying      a value in a local's cell is a value in memory
//     proofs/Asking     a call that has values and answers another
//     proofs/Locals     a function's locals, all at once: there where a walk begins, given back where it ends
//     proofs/Behind     a struct behind a `&mut`, opened and closed
//     proofs/Unlocking  a slice behind a `&mut`, opened and closed
//     proofs/Walking    a function that a walk of its MIR meets
//     proofs/Tests      what a test says
