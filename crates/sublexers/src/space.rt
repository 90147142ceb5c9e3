// RCL -- A reasonable configuration language.
// Copyright 2023 Ruud van Asseldonk
// Licensed under the Apache License, Version 2.0 (the "License"): see NOTICE.
// From src/lexer.rs of RCL, changed: line ends are counted while the run is measured.

#![tactic(auto, using(crate::proofs::Numbers::whitespace_steps), unfolding(token::specs::Codes::code_of))]

// Whitespace.
ghost use Rattle.std.specs.Prelude.{◌≡◌, leb, drop};
ghost use Rattle.rules.specs.Step.{whitespace};
ghost use Rattle.sublexers.specs.Outcome.{outcome, step_meant};

use crate::{Step, lexeme_to};
use token::Token;

// Whether whitespace with so many line ends is a Blank.
pub fn is_blank(lines: usize) -> bool
    ensures { result ≡ leb 2 lines }
{
    2 <= lines
}

// A Space, or a Blank with two line ends or more.
pub fn lex_in_space(text: &[u8], at: usize) -> Step
    ensures { step_meant result ≡ outcome at (whitespace (drop at text.now)) }
{
    let run = scan::whitespace(text, at);
    let end = at + run.length;
    if is_blank(run.lines) {
        return lexeme_to(end, Token::Blank);
    }
    lexeme_to(end, Token::Space)
}
