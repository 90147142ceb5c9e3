// The exported interface, for C and Rust. include/rcl.h documents each call; `words` has the structs that they answer. Kept: numbers for kinds and arrays one by one, as C lends them.
#![tactic(auto)]

mod handing;
mod lexing;
mod strings;
mod tallying;
mod walking;

pub use handing::rcl_hand_check;
pub use lexing::{rcl_lex, rcl_tidy, rcl_utf8};
pub use strings::{
    rcl_count_common_leading_spaces, rcl_is_identifier, rcl_is_keyword, rcl_parts,
    rcl_scalar_value, rcl_unescape_into, rcl_value,
};
pub use tallying::rcl_lex_tallied;
pub use walking::{rcl_walker_open, rcl_walker_step};
