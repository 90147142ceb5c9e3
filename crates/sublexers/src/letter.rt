// RCL -- A reasonable configuration language.
// Copyright 2023 Ruud van Asseldonk
// Licensed under the Apache License, Version 2.0 (the "License"): see NOTICE.
// From src/lexer.rs of RCL, changed: what an `f` before a quote opens is told here.

#![tactic(auto, using(crate::proofs::Letters::letter_steps), unfolding(token::specs::Codes::code_of))]

// A letter: a format string opens, or an identifier begins.
ghost use Rattle.std.specs.Prelude.{◌≡◌, ◌+◌, drop};
ghost use Rattle.sublexers.specs.Outcome.{outcome, step_meant};
ghost use Rattle.sublexers.specs.Words.{is_identifier_byte_in};
ghost use Rattle.sublexers.specs.ByClass.{lettered_by};

use crate::{Step, ident, punct};
use token::StringPrefix;

// A format string opens, or an identifier begins; `first` is the byte there, which the caller has read.
pub fn lex_in_letter(table: &[u8; 256], first: u8, text: &[u8], at: usize) -> Step
    ensures { step_meant result ≡ outcome at (lettered_by (is_identifier_byte_in table.now) first (drop (at + 1) text.now) (drop at text.now)) }
{
    if first == b'f' && at < text.len() && basics::byte_at(text, at + 1) == b'"' {
        return punct::open_quote(text, at, 1, StringPrefix::Format);
    }
    ident::lex_in_ident(table, text, at)
}
