// RCL -- A reasonable configuration language.
// Copyright 2023 Ruud van Asseldonk
// Licensed under the Apache License, Version 2.0 (the "License"): see NOTICE.
// From src/lexer.rs of RCL, changed: lexemes and openers go to lent arrays, and an error is a numbered refusal.

#![tactic(auto)]

// The lexer splits a text into a sequence of tokens. One step (`next`), which the sub-lexers make up, and `lex` above it.
mod lent;
mod lexing;
mod next;
mod stepping;

ghost use Rattle.std.specs.Prelude.{◌≡◌, ◌<◌, ◌^◌};
ghost use Rattle.rules.specs.Spans.{span};
ghost use Rattle.source.specs.Meaning.{span_meant};

pub use lexing::lex;
use source::{Refusal, Span};
pub use stepping::step_at;
use sublexers::Fault;
use token::{State, Token};

// What the innermost opener makes of the next step: the byte that ends an inner part beside a quote, 0 outside strings, and whether quotes are triple. Both follow from `top`.
// Kept: 0 and no `Option`, with which a third more branches are missed on the move table, and lexing it would be under twice the Rust with both lists warm.
#[derive(Clone, Copy, Debug, PartialEq, Eq)]
pub struct Mode {
    pub stop: u8,
    pub triple: bool,
    pub top: Option<State>,
}

// Where the lexer stands, and what it has counted. Steps are lexemes and Spaces; the bytes that were not dropped are kept.
// Kept: no invariant. What bounds its counts is the text's length, the shift and the stack's places, which it does not hold; `CanAdvance` says it once, for the four that count.
#[derive(Clone, Copy, Debug, Default, PartialEq, Eq)]
pub struct Cursor {
    pub at: usize,
    pub depth: usize,
    pub lexemes: usize,
    pub spaces: usize,
    pub dropped: usize,
    pub deepest: usize,
}

// Whitespace behind a lexeme, and where it ends.
#[derive(Clone, Copy, Debug, PartialEq, Eq)]
pub enum Behind {
    Space(usize),
    Blank(usize),
}

// Where steps came to: the counts there, and the last one's token where they came to their end, or why a step was refused.
#[derive(Clone, Copy, Debug, PartialEq, Eq)]
pub struct Ran {
    pub cursor: Cursor,
    pub end: Result<Token, Fault>,
}

// A token and its span.
#[derive(Clone, Copy, Debug, PartialEq, Eq)]
pub struct TokenAt {
    pub token: Token,
    pub at: Span,
}

// A single step's answer, and the position and depth after it: a lexeme, a Space included; nothing where the text has ended; or a refusal.
#[derive(Clone, Copy, Debug, PartialEq, Eq)]
pub struct Stepped {
    pub answer: Result<Option<TokenAt>, Refusal>,
    pub position: usize,
    pub depth: usize,
}

// What lexing answers: of the steps that were not refused, how many, how many lexemes, how many bytes of lexemes and of spaces, and the most that was open at once.
#[derive(Clone, Copy, Debug, PartialEq, Eq)]
pub struct Lexed {
    pub answer: Result<(), Refusal>,
    pub lexemes: usize,
    pub steps: usize,
    pub kept: usize,
    pub dropped: usize,
    pub deepest: usize,
}

// The span of two offsets within the limit: no test, since the loop makes one for each lexeme.
// Kept: a second `pack`, private like the one of `source`: both ask for offsets within the limit, and nothing that another crate can call has a `requires`.
pub(crate) fn pack(doc: u32, start: usize, end: usize) -> Span
    requires { (start < 2 ^ 48) × (end < 2 ^ 48) }
    ensures { span_meant result ≡ span doc start end }
{
    let s = start as u64;
    let e = end as u64;
    Span {
        low: s + e % 0x1_0000 * 0x1_0000_0000_0000,
        high: e / 0x1_0000 + u64::from(doc) * 0x1_0000_0000,
    }
}
