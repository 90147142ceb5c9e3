// RCL -- A reasonable configuration language.
// Copyright 2023 Ruud van Asseldonk
// Licensed under the Apache License, Version 2.0 (the "License"): see NOTICE.
// From src/string.rs of RCL, changed: on bytes, output goes to a lent array, parts stand in a lent list, and an error is a numbered refusal.

#![tactic(auto)]

// Utilities for working with strings.
mod hex;
mod leading;
mod names;
mod part_bytes;
mod unescape;

pub use leading::{check, count_common_leading_spaces, leading_spaces, starts_line};
pub use names::is_identifier;
pub use part_bytes::{line_byte, line_length, part_byte, part_length, taken_off};
pub use unescape::{scalar_value, unescape_into};
