// The walk through a table, whatever is done at a field: document 01, "Reading a payload" and
// "Writing a payload", which go the same way. Fields in order; where a set starts, its elements.
//
// Promise: specs/Walk.antt says which fields are met and in which order, over any table and any rule
// for one field; proofs/Machine.antt that the walk by single turns, from spot to spot, meets the same
// and comes to the same end. The code here takes any words.
#![tactic(auto)]

mod looks;
mod places;

pub use crate::looks::look_at;
pub use crate::places::place_at;

// Where a field stands: it starts set k, is a later field of a set, or is in none.
#[derive(Clone, Copy)]
pub enum Place {
    Starts(usize),
    Inside,
    Plain,
}

// Where a walk stands: at a field, or at a field of an element of a set, which has `count` elements.
#[derive(Clone, Copy)]
pub enum Spot {
    Field(usize),
    Within {
        set: usize,
        count: usize,
        element: usize,
        offset: usize,
    },
}

// What a walk does next, from the spot where it stands.
#[derive(Clone, Copy)]
pub enum Look {
    // Nothing: it is past the last field.
    End,
    // It goes on at another spot.
    Pass(Spot),
    // It enters set k, if that has not too many elements.
    Enter(usize),
    // It meets a field, of an element of a set or of none, and then goes on at `to`. `last` says that the field is the last of the table,
    // outside a set.
    Meet {
        field: usize,
        element: Option<usize>,
        last: bool,
        to: Spot,
    },
}
