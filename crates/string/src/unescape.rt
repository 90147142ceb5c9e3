// RCL -- A reasonable configuration language.
// Copyright 2023 Ruud van Asseldonk
// Licensed under the Apache License, Version 2.0 (the "License"): see NOTICE.
// From src/string.rs of RCL, changed: on bytes, the form is checked, output goes to a lent array, and an error is a numbered refusal.

// Escape sequences: the scalar value of one, and writing it.
ghost use Rattle.std.specs.Prelude.{◌≡◌, ◌≤◌, true, IfOk, OnErr};
ghost use Rattle.rules.specs.Text.{all};
ghost use Rattle.rules.specs.Bytes.{is_hex_digit};
ghost use Rattle.rules.specs.Utf8.{is_scalar};
ghost use Rattle.rules.specs.Reasons.{number_of};
ghost use Rattle.rules.specs.Answers.{refuse};
ghost use Rattle.rules.specs.Escapes.{is_single, is_unicode4, is_unicode_delim, single_scalar, unicode_scalar, scalar_of, escape_scalar, Unescapes};
ghost use Rattle.source.specs.Meaning.{span_meant, count_meant};
ghost use Rattle.output.specs.Places.{Put, SameBytes};
ghost use Rattle.utf8.specs.Meaning.{encoded_meant};
ghost use Rattle.string.specs.Meaning.{bytes_written};

use crate::hex;
use output::{Full, Output};
use rules::{Reason, kind};
use source::{Refusal, Span};
use utf8::Encoded;

fn refused(reason: Reason, span: Span) -> Result<u32, Refusal>
    ensures { count_meant result ≡ refuse (number_of reason) (span_meant span) }
{
    Err(source::refuse(reason, span))
}

// The byte after the backslash.
#[tactic(auto, unfolding(rules::specs::Escapes::single_scalar, rules::specs::Bytes::is_capital, rules::specs::Utf8::is_scalar))]
fn unescape_single(span: Span, ch: u8) -> Result<u32, Refusal>
    ensures value { count_meant result ≡ single_scalar (span_meant span) ch }
    ensures scalar { IfOk result (λ u. is_scalar u ≡ true) }
{
    match ch {
        // The following escape sequences are identical to json.
        b'"' => Ok(0x22),
        b'\\' => Ok(0x5C),
        b'/' => Ok(0x2F),
        b'b' => Ok(0x08),
        b'f' => Ok(0x0C),
        b'n' => Ok(0x0A),
        b'r' => Ok(0x0D),
        b't' => Ok(0x09),
        // This one is not part of json. We add it to escape { in f-strings, but for consistency it can be used in any string literal.
        b'{' => Ok(0x7B),
        // } never needs to be escaped, but for symmetry with { we allow it.
        b'}' => Ok(0x7D),
        // Escape sequences are written lowercase.
        b'A'..=b'Z' => refused(Reason::CapitalEscape, span),
        _ => refused(Reason::UnknownEscape, span),
    }
}

#[tactic(auto, unfolding(rules::specs::Escapes::unicode_scalar))]
fn unescape_unicode(span: Span, digits: &[u8]) -> Result<u32, Refusal>
    requires { all is_hex_digit digits.now ≡ true }
    ensures value { count_meant result ≡ unicode_scalar (span_meant span) digits.now }
    ensures scalar { IfOk result (λ u. is_scalar u ≡ true) }
{
    if digits.is_empty() {
        return refused(Reason::NoDigits, span);
    }
    if 6 < digits.len() {
        return refused(Reason::ManyDigits, span);
    }
    let u = hex::hex_value(digits);
    if !utf8::is_scalar(u) {
        return refused(Reason::NotScalar, span);
    }
    Ok(u)
}

// "Form: kind 11 is `\` and one byte"
#[tactic(auto, unfolding(rules::specs::Escapes::is_single))]
fn is_single(bytes: &[u8]) -> bool
    ensures { result ≡ is_single bytes.now }
{
    matches!(bytes, [b'\\', _])
}

// "12 is `\u` and four hex digits"
#[tactic(auto, unfolding(rules::specs::Escapes::is_unicode4))]
fn is_unicode4(bytes: &[u8]) -> bool
    ensures { result ≡ is_unicode4 bytes.now }
{
    matches!(bytes, [b'\\', b'u', _, _, _, _]) && hex::all_hex_digits(&bytes[2..])
}

// "13 is `\u{`, any number of hex digits, none included, and `}`"
#[tactic(auto, using(crate::proofs::Escapes::last_brace), unfolding(rules::specs::Escapes::is_unicode_delim))]
fn is_unicode_delim(bytes: &[u8]) -> bool
    ensures { result ≡ is_unicode_delim bytes.now }
{
    match bytes {
        [b'\\', b'u', b'{', digits @ .., b'}'] => hex::all_hex_digits(digits),
        _ => false,
    }
}

// The scalar value of the bytes of an escape sequence of a kind.
// Kept: a test for each form; one match on the kind and the bytes, which binds the digits, takes up to a third more instructions.
#[tactic(auto, unfolding(rules::specs::Escapes::scalar_of, rules::specs::Escapes::is_single, rules::specs::Escapes::is_unicode4, rules::specs::Escapes::is_unicode_delim))]
fn scalar_of(span: Span, kind: u8, bytes: &[u8]) -> Result<u32, Refusal>
    ensures value { count_meant result ≡ scalar_of (span_meant span) kind bytes.now }
    ensures scalar { IfOk result (λ u. is_scalar u ≡ true) }
{
    match kind {
        kind::SINGLE if is_single(bytes) => unescape_single(span, bytes[1]),
        kind::UNICODE4 if is_unicode4(bytes) => unescape_unicode(span, &bytes[2..]),
        kind::UNICODE_DELIM if is_unicode_delim(bytes) => {
            unescape_unicode(span, &bytes[3..bytes.len() - 1])
        }
        _ => refused(Reason::WrongForm, span),
    }
}

// The scalar value of an escape sequence of a text: 3, 40, 43, 44, 45, 41, 42. Kept: a kind's number, as C gives it; an `Escape` would ask more of callers, and for what is no escape 3 comes before 40.
#[tactic(auto, unfolding(rules::specs::Escapes::escape_scalar, rules::specs::Source::resolved))]
pub fn scalar_value(text: &[u8], span: Span, kind: u8) -> Result<u32, Refusal>
    ensures value { count_meant result ≡ escape_scalar text.now (span_meant span) kind }
    ensures scalar { IfOk result (λ u. is_scalar u ≡ true) }
{
    span.inside(text)?;
    scalar_of(span, kind, &text[span.start()..span.end()])
}

// Writes the bytes of a character, whole or not.
// Kept: by its length; a copy of `as_bytes`, whose length is not known, takes a quarter more instructions for one byte.
fn put_encoded(encoded: Encoded, output: &mut Output<'_>) -> Result<(), Full>
    ensures { Put (encoded_meant encoded) output.old result output.new }
{
    let bytes = encoded.bytes;
    let n = encoded.length;
    match n {
        1 => output.put(&bytes[..1]),
        2 => output.put(&bytes[..2]),
        3 => output.put(&bytes[..3]),
        _ => output.put(&bytes[..n]),
    }
}

// Convert an escape sequence into the bytes it represents, at the output's position: as `scalar_value`, then 46.
#[tactic(auto, using(crate::proofs::Escapes::writes), unfolding(rules::specs::Escapes::unescape, rules::specs::Escapes::scalar_put))]
pub fn unescape_into(
    text: &[u8],
    span: Span,
    kind: u8,
    output: &mut Output<'_>,
) -> Result<(), Refusal>
    ensures unescapes { Unescapes text.now (span_meant span) kind output.old.bytes.now output.old.at (bytes_written output.old result output.new) output.new.bytes.now }
    ensures onward { output.old.at ≤ output.new.at }
    ensures stays { OnErr result (output.new.at ≡ output.old.at) }
    ensures same { SameBytes output.old output.new }
{
    let u = scalar_value(text, span, kind)?;
    // Kept: a match; behind `map_err` the check finds no proof by the laws of escapes.
    match put_encoded(utf8::encode(u), output) {
        Ok(()) => Ok(()),
        Err(Full) => Err(source::refuse(Reason::OutputFull, span)),
    }
}
