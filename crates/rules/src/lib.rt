// The rules of document 01 as definitions (specs/), the laws about them that every crate above needs (proofs/), and the rules' numbers by name.
#![tactic(auto)]

pub mod class;
pub mod kind;
mod refusal;

pub use refusal::{Reason, Unnamed};

// "at most 2^48 − 1 bytes"
pub const LIMIT: usize = 0xffff_ffff_ffff;
