// RCL -- A reasonable configuration language.
// Copyright 2023 Ruud van Asseldonk
// Licensed under the Apache License, Version 2.0 (the "License"): see NOTICE.
// From src/lexer.rs of RCL, changed: positions are passed in and answered, and an error is a numbered refusal.

#![tactic(auto)]

// The sub-lexers: one lexeme at a position, by what stands there. Each answers at every position of every text.
mod ident;
mod in_string;
mod letter;
mod number;
mod punct;
mod space;

ghost use Rattle.std.specs.Prelude.{◌≡◌};
ghost use Rattle.rules.specs.Reasons.{number_of};
ghost use Rattle.token.specs.Codes.{code_of};
ghost use Rattle.sublexers.specs.Outcome.{lexeme_to, refused_at, step_meant};

pub use ident::is_keyword;
pub use in_string::lex_in_string;
pub use letter::lex_in_letter;
pub use number::lex_in_number;
pub use punct::lex_in_punct;
use rules::Reason;
pub use space::{is_blank, lex_in_space};
use token::Token;

// What a step found: where it ends, its token, and the token's kind code. `end` comes first here and in a fault, so that both cases of a step share its place in memory.
// Kept: the code beside the token. Looked up at each lexeme it costs 23 to 29 % more instructions.
#[derive(Clone, Copy, Debug, PartialEq, Eq)]
pub struct Match {
    pub end: usize,
    pub token: Token,
    pub kind: u8,
}

// Why a step was refused, and its span. Kept: no invariant that its offsets are within the limit, since each sub-lexer answers at every position, those past it included.
#[derive(Clone, Copy, Debug, PartialEq, Eq)]
pub struct Fault {
    pub end: usize,
    pub reason: Reason,
    pub start: usize,
}

pub type Step = Result<Match, Fault>;

// The last position that there is: no text reaches it, and no position comes after it.
// Kept: `at + 1 < 2 ^ 64` in eleven private contracts. A struct of the text and the place that holds it was tried and proved: 2 % more instructions on the move table, 4 % on varied triple-quoted strings, which would be under twice the Rust.
pub(crate) const LAST: usize = 0xffff_ffff_ffff_ffff;

// A lexeme that ends there. Always inlined, like the three that hand a token on to it: the token is a constant there, so its kind code is one too, and no step looks it up.
#[inline(always)]
pub(crate) fn lexeme_to(end: usize, token: Token) -> Step
    ensures { step_meant result ≡ lexeme_to (code_of token) end }
{
    Ok(Match {
        end,
        token,
        kind: u8::from(token),
    })
}

// A refusal and its span.
pub fn refused_at(reason: Reason, start: usize, end: usize) -> Step
    ensures { step_meant result ≡ refused_at (number_of reason) start end }
{
    Err(Fault { end, reason, start })
}
