// RCL -- A reasonable configuration language.
// Copyright 2023 Ruud van Asseldonk
// Licensed under the Apache License, Version 2.0 (the "License"): see NOTICE.
// From src/source.rs of RCL, changed: a span is passed by value, and what the Rust asserts is refused.

#![tactic(auto)]

// Types for dealing with input source code.
ghost use Rattle.std.specs.Prelude.{◌≡◌, ◌^◌, ◌<◌, ◌≤◌, not, ◌&&◌, eqb, length, OnOk, Some};
ghost use Rattle.rules.specs.Spans.{span, nowhere as nowhere_rule, is_bad};
ghost use Rattle.rules.specs.Answers.{refusal, given, unless_bad};
ghost use Rattle.rules.specs.Refusals.{BadSpan};
ghost use Rattle.rules.specs.Reasons.{number_of};
ghost use Rattle.rules.specs.Source.{new_span, len_of, trim_start, trim_end, until_of, union_of, resolved};
ghost use Rattle.source.specs.Meaning.{span_meant, refusal_meant, spanned_meant, count_meant, offsets_meant, inside_meant, part_of, resolved_at};
ghost use Rattle.source.specs.Printed.{refusal_text};

use rules::{LIMIT, Reason};
use std::error::Error;
use std::fmt;

// Marks a location in a source file by byte offset. Packed, from the least significant bit: 48 bits start offset, 48 bits end offset, 32 bits document id.
// Kept: any two words make one, as C gives them, so that it is no bad one is asked where it matters (`is_bad`) and is no invariant.
#[derive(Clone, Copy, Debug, Default, PartialEq, Eq)]
pub struct Span {
    pub low: u64,
    pub high: u64,
}

// What is turned down: why, where, and perhaps a second place that explains it.
#[derive(Clone, Copy, Debug, PartialEq, Eq)]
pub struct Refusal {
    pub reason: Reason,
    pub at: Span,
    pub note: Option<Span>,
}

// "A refusal prints `refused`, number, start, end, and note start and end if any, on one line with single spaces."
impl fmt::Display for Refusal {
    ghost output = { λ r. Some (refusal_text (refusal_meant r)) };

    fn fmt<W: fmt::Write>(&self, f: &mut fmt::Formatter<W>) -> fmt::Result {
        let number = u8::from(self.reason);
        write!(f, "refused {number} {} {}", self.at.start(), self.at.end())?;
        match self.note {
            Some(opener) => write!(f, " {} {}", opener.start(), opener.end()),
            None => Ok(()),
        }
    }
}

impl Error for Refusal {}

// "elsewhere 0-0 is two zero words"
#[tactic(auto, unfolding(rules::specs::Spans::span_of))]
pub fn nowhere() -> Span
    ensures { span_meant result ≡ nowhere_rule }
{
    Span::default()
}

// "Spans of a lexing call carry its document id, 0-0 too"
pub fn start_of(doc: u32) -> Span
    ensures { span_meant result ≡ span doc 0 0 }
{
    Span::pack(doc, 0, 0)
}

// A refusal without a note.
pub fn refuse(reason: Reason, at: Span) -> Refusal
    ensures { refusal_meant result ≡ refusal (number_of reason) (span_meant at) }
{
    Refusal {
        reason,
        at,
        note: None,
    }
}

// "Refusal 3 carries the span 0-0"
pub fn bad_span() -> Refusal
    ensures { refusal_meant result ≡ refusal BadSpan nowhere_rule }
{
    refuse(Reason::BadSpan, nowhere())
}

impl Span {
    #[tactic(auto, unfolding(rules::specs::Source::new_span))]
    pub fn new(doc: u32, start: usize, end: usize) -> Result<Span, Refusal>
        ensures { spanned_meant result ≡ new_span doc start end }
    {
        if end < start {
            return Err(bad_span());
        }
        if LIMIT < end {
            return Err(bad_span());
        }
        Ok(Span::pack(doc, start, end))
    }

    // The span of two offsets that are known to be within the limit.
    fn pack(doc: u32, start: usize, end: usize) -> Span
        requires { (start < 2 ^ 48) × (end < 2 ^ 48) }
        ensures { span_meant result ≡ span doc start end }
    {
        let s = start as u64;
        let e = end as u64;
        Span {
            low: s + e % 0x1_0000 * 0x1_0000_0000_0000,
            high: e / 0x1_0000 + u64::from(doc) * 0x1_0000_0000,
        }
    }

    // Id of the document that this span belongs to.
    #[tactic(auto, unfolding(rules::specs::Spans::span_of))]
    pub fn doc(self) -> u32
        ensures { result ≡ (span_meant self).doc }
    {
        (self.high / 0x1_0000_0000) as u32
    }

    // Start byte offset of the span, inclusive.
    #[tactic(auto, unfolding(rules::specs::Spans::span_of))]
    pub fn start(self) -> usize
        ensures { result ≡ (span_meant self).start }
    {
        (self.low % 0x1_0000_0000_0000) as usize
    }

    // End byte offset of the span, exclusive.
    #[tactic(auto, unfolding(rules::specs::Spans::span_of))]
    pub fn end(self) -> usize
        ensures { result ≡ (span_meant self).end }
    {
        (self.low / 0x1_0000_0000_0000 + self.high % 0x1_0000_0000 * 0x1_0000) as usize
    }

    // Whether its start is after its end.
    pub fn is_bad(self) -> bool
        ensures { result ≡ is_bad (span_meant self) }
    {
        self.end() < self.start()
    }

    // Its start and end, or refusal 3.
    fn offsets(self) -> Result<(usize, usize), Refusal>
        ensures { offsets_meant result ≡ unless_bad (span_meant self) (given ((span_meant self).start, (span_meant self).end)) }
    {
        if self.is_bad() {
            return Err(bad_span());
        }
        Ok((self.start(), self.end()))
    }

    // Length of this span in bytes.
    #[tactic(auto, unfolding(rules::specs::Source::len_of))]
    pub fn len(self) -> Result<usize, Refusal>
        ensures { count_meant result ≡ len_of (span_meant self) }
    {
        let (s, e) = self.offsets()?;
        Ok(e - s)
    }

    // Whether the span lies inside a text: refusal 3, then 40 with the span.
    #[tactic(auto, unfolding(rules::specs::Source::resolved))]
    pub fn inside(self, text: &[u8]) -> Result<(), Refusal>
        ensures resolved { inside_meant result text.now (span_meant self) ≡ resolved text.now (span_meant self) }
        ensures within { OnOk result (((span_meant self).start ≤ (span_meant self).end) × ((span_meant self).end ≤ length text.now)) }
    {
        let (_, e) = self.offsets()?;
        if text.len() < e {
            return Err(refuse(Reason::WrongForm, self));
        }
        Ok(())
    }

    // Delete n bytes from the start of the span.
    #[tactic(auto, unfolding(rules::specs::Source::trim_start))]
    pub fn trim_start(self, n: usize) -> Result<Span, Refusal>
        ensures { spanned_meant result ≡ trim_start (span_meant self) n }
    {
        let (s, e) = self.offsets()?;
        Ok(Span::pack(self.doc(), s + n.min(e - s), e))
    }

    // Delete n bytes from the end of the span.
    #[tactic(auto, unfolding(rules::specs::Source::trim_end))]
    pub fn trim_end(self, n: usize) -> Result<Span, Refusal>
        ensures { spanned_meant result ≡ trim_end (span_meant self) n }
    {
        let (s, e) = self.offsets()?;
        Ok(Span::pack(self.doc(), s, e - n.min(e - s)))
    }

    // Whether two spans are of one document and neither has its start after its end.
    fn together(self, other: Span) -> bool
        ensures { result ≡ not (is_bad (span_meant self)) && not (is_bad (span_meant other)) && eqb (span_meant self).doc (span_meant other).doc }
    {
        !self.is_bad() && !other.is_bad() && self.doc() == other.doc()
    }

    // Return a span that runs from self up to but not including `other`.
    #[tactic(auto, unfolding(rules::specs::Source::until_of))]
    pub fn until(self, other: Span) -> Result<Span, Refusal>
        ensures { spanned_meant result ≡ until_of (span_meant self) (span_meant other) }
    {
        if !self.together(other) {
            return Err(bad_span());
        }
        Span::new(self.doc(), self.start(), other.start())
    }

    // Return a span that encloses both spans.
    #[tactic(auto, unfolding(rules::specs::Source::union_of))]
    pub fn union(self, other: Span) -> Result<Span, Refusal>
        ensures { spanned_meant result ≡ union_of (span_meant self) (span_meant other) }
    {
        if !self.together(other) {
            return Err(bad_span());
        }
        Ok(Span::pack(
            self.doc(),
            self.start().min(other.start()),
            self.end().max(other.end()),
        ))
    }
}

// The part of a text that a span names, at its place; the text's empty start where `inside` refuses.
// Kept: a slice and no `Option`, since for a refused span a hand-back owes the text's empty start; whoever wants the refusal asks `inside`.
pub fn resolve(text: &[u8], span: Span) -> &[u8]
    ensures part { result.now ≡ part_of (resolved text.now (span_meant span)) }
    ensures address { result.ref_ptr ≡ resolved_at text.entry (span_meant span) }
{
    match span.inside(text) {
        Ok(()) => &text[span.start()..span.end()],
        Err(_) => &text[..0],
    }
}
