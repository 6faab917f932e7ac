// Text on a lent page: bytes, numbers in digits, and the text of a refusal.
//
// Promise: each call puts a text on a page, from its place on, and specs/Sheet.antt says what the page then
// holds, byte for byte. Where the page has no room the rest of the text is lost: its place is LOST then, and
// a text that is put there is lost too. So nothing is asked of the room beforehand: a line is put piece by
// piece, and its last place says whether it is whole. What stands before the place is kept
// (proofs/Sheets.antt, `stands`). No call has a `requires`.
#![tactic(auto)]

mod digits;
mod pages;
mod refusals;

pub use crate::pages::{LOST, Page};
