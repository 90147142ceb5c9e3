// RCL -- A reasonable configuration language.
// Copyright 2023 Ruud van Asseldonk
// Licensed under the Apache License, Version 2.0 (the "License"): see NOTICE.
// From src/cst.rs of RCL, changed: of the syntax tree only the parts of a string, a hole without its expression; listed in lent arrays.

#![tactic(auto)]

// The parts of a string.
mod search;

ghost use Rattle.std.specs.Prelude.{◌≡◌, ◌≤◌, false, Some, codes};
ghost use Rattle.rules.specs.Spans.{nowhere, is_bad};
ghost use Rattle.source.specs.Meaning.{span_meant};
ghost use Rattle.list.specs.Entries.{entry_meant};
ghost use Rattle.cst.specs.Meaning.{part_meant, as_part_meant, if_part};

use list::Entry;
use rules::kind;
pub use search::{Effect, parts};
use source::{Refusal, Span};
use std::error::Error;
use std::fmt;
use token::Escape;

// A part of a string literal or format string.
#[derive(Clone, Copy, Debug, PartialEq, Eq)]
pub enum StringPart {
    // A fragment of a line. The `\n` is leading, not trailing.
    String(Span),
    // An escape sequence.
    Escape(Span, Escape),
    // An interpolation hole (only inside format strings).
    Hole(Span),
}

// An entry of a list that is no part of a string.
#[derive(Clone, Copy, Debug, PartialEq, Eq)]
pub struct NoPart;

impl fmt::Display for NoPart {
    ghost output = { λ no_part. Some (codes "no part of a string") };

    fn fmt<W: fmt::Write>(&self, f: &mut fmt::Formatter<W>) -> fmt::Result {
        f.write_str("no part of a string")
    }
}

impl Error for NoPart {}

// What a call that lists parts answers, or a refusal, and how many were put into the list: a refusal leaves those before it listed.
#[derive(Clone, Copy, Debug, PartialEq, Eq)]
pub struct Parted<T> {
    pub answer: Result<T, Refusal>,
    pub parts: usize,
}

// What is open where the search for the closer stands: how many strings and holes, and the span of the outermost hole's opener where there is one.
// Kept: 0-0 and no `Option` where there is none, as `parts_from` begins: where a hole closes an `Option` would have an arm that is never taken.
#[derive(Clone, Copy)]
pub struct Open {
    pub depth: usize,
    pub hole: Span,
    pub ghost some_open: { 1 ≤ depth },
    pub ghost good: { is_bad (span_meant hole) ≡ false },
}

impl Open {
    fn only_string() -> Open
        ensures depth { result.depth ≡ 1 }
        ensures hole { span_meant result.hole ≡ nowhere }
    {
        Open {
            depth: 1,
            hole: source::nowhere(),
        }
    }
}

// A part as an entry of a list.
impl From<StringPart> for Entry {
    ghost from_gives = { λ part entry. entry_meant entry ≡ part_meant part };

    fn from(part: StringPart) -> Entry {
        match part {
            StringPart::String(at) => Entry {
                kind: kind::STRING_INNER,
                at,
            },
            StringPart::Escape(at, escape) => Entry {
                kind: u8::from(escape),
                at,
            },
            StringPart::Hole(at) => Entry {
                kind: kind::HOLE_OPEN,
                at,
            },
        }
    }
}

// An entry of a list as a part. Kept: by the codes of the five kinds; by the code's token the search for the closer takes 6 to 13 % more instructions on format and triple-quoted strings.
impl TryFrom<Entry> for StringPart {
    type Error = NoPart;

    ghost try_from_gives = { λ entry result. as_part_meant result ≡ if_part (entry_meant entry) };

    #[tactic(auto, unfolding(crate::specs::Meaning::if_part))]
    fn try_from(entry: Entry) -> Result<StringPart, NoPart> {
        let at = entry.at;
        match entry.kind {
            kind::STRING_INNER => Ok(StringPart::String(at)),
            kind::SINGLE => Ok(StringPart::Escape(at, Escape::Single)),
            kind::UNICODE4 => Ok(StringPart::Escape(at, Escape::Unicode4)),
            kind::UNICODE_DELIM => Ok(StringPart::Escape(at, Escape::UnicodeDelim)),
            kind::HOLE_OPEN => Ok(StringPart::Hole(at)),
            _ => Err(NoPart),
        }
    }
}
