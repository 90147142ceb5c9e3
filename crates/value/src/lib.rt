// The value of a string: its String and Escape parts in order.
#![tactic(auto)]

mod piece;
mod pieces;
mod valuing;

use cst::Parted;
pub use valuing::value;

// Where a value stands: from a start to an end of the text, or of the output.
#[derive(Clone, Copy, Debug, PartialEq, Eq)]
pub enum Held {
    Text(usize, usize),
    Output(usize, usize),
}

// What the value call answers, and how many parts were put into the parts list.
pub type Valued = Parted<Held>;
