// What a decode prints, line by line: document 01, the end of "Cases".
//
// Promise: each function puts its text on a lent page, as `text` says, and specs/Lines.antt says which
// text that is. `put_decode` puts the lines of all readings of a payload by a built-in message, and then
// its end or its refusal: specs/Decode.antt. No call has a `requires`.
#![tactic(auto)]

mod decodes;
mod rows;

pub use crate::decodes::put_decode;
pub use crate::rows::{
    put_end, put_frame, put_head, put_place, put_reading, put_refusal, put_unknown,
};
