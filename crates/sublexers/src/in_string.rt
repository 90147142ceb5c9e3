// RCL -- A reasonable configuration language.
// Copyright 2023 Ruud van Asseldonk
// Licensed under the Apache License, Version 2.0 (the "License"): see NOTICE.
// From src/lexer.rs of RCL, changed: one function for plain and format strings, and an error is a numbered refusal.

#![tactic(auto, using(crate::proofs::Quoted::quoted_steps), unfolding(token::specs::Codes::code_of))]

// Inside string literals and format strings.
ghost use Rattle.std.specs.Prelude.{◌≡◌, cond, not, ◌&&◌, ◌||◌, ◌∷◌, ◌+◌, ◌<◌, ◌^◌, length, drop, get_or};
ghost use Rattle.rules.specs.Text.{is};
ghost use Rattle.rules.specs.Step.{unicode_delim, unicode4, single_escape};
ghost use Rattle.sublexers.specs.Outcome.{outcome, anywhere, step_meant};
ghost use Rattle.sublexers.specs.Quotes.{inside_by};
ghost use Rattle.sublexers.specs.ByClass.{backslash, escaped};

use crate::{LAST, Step, lexeme_to, refused_at};
use rules::Reason;
use scan::{Hex, Tail};
use token::{Escape, Token};

// After `\u{`. Take only hex digits, stop at anything else, even if we haven't encountered the closing `}` yet. If we only stopped at `}`, then we
// might continue past the closing quote of the string, and that would result in very puzzling errors.
fn unicode_delim(text: &[u8], at: usize) -> Step
    requires { at + 2 < length text.now }
    ensures { step_meant result ≡ outcome at (unicode_delim (backslash ∷ drop (at + 1) text.now)) }
{
    let end = scan::run_end(text, at + 3, Hex);
    if basics::byte_at(text, end) == b'}' {
        return lexeme_to(end + 1, Token::Escape(Escape::UnicodeDelim));
    }
    refused_at(Reason::NoClosingBrace, end, end)
}

// After `\u`. Also here, we cannot blindly take 6 bytes, because in the error case, that might eat the closing quote.
fn unicode_four(text: &[u8], at: usize) -> Step
    requires { at + 1 < length text.now }
    ensures { step_meant result ≡ outcome at (unicode4 (backslash ∷ drop (at + 1) text.now)) }
{
    let end = scan::run_end(text, at + 2, Hex);
    if at + 6 <= end {
        return lexeme_to(at + 6, Token::Escape(Escape::Unicode4));
    }
    refused_at(Reason::FewHexDigits, at, end)
}

// After `\`. Line ends are special: `\` does not escape the end of the line. A byte over 127 begins a code point of several bytes.
fn single_escape(text: &[u8], at: usize) -> Step
    requires { at + 1 < 2 ^ 64 }
    ensures { step_meant result ≡ outcome at (single_escape (backslash ∷ drop (at + 1) text.now)) }
{
    match text.get(at + 1) {
        None => refused_at(Reason::EscapeAtEnd, at, at + 1),
        Some(b'\r' | b'\n') => refused_at(Reason::EscapedLineEnd, at, at + 2),
        Some(128..) => refused_at(
            Reason::EscapedNotAscii,
            at,
            scan::run_end(text, at + 2, Tail),
        ),
        Some(_) => lexeme_to(at + 2, Token::Escape(Escape::Single)),
    }
}

// An escape sequence, where a `\` stands.
fn lex_in_escape(text: &[u8], at: usize) -> Step
    requires { at + 1 < 2 ^ 64 }
    ensures { step_meant result ≡ outcome at (escaped (backslash ∷ drop (at + 1) text.now)) }
{
    if basics::byte_at(text, at + 1) != b'u' {
        return single_escape(text, at);
    }
    if basics::byte_at(text, at + 2) == b'{' {
        return unicode_delim(text, at);
    }
    unicode_four(text, at)
}

// Whether a quote here is the closing one: in triple quotes two more must follow.
fn closes_string(text: &[u8], at: usize, triple: bool) -> bool
    requires { at + 1 < 2 ^ 64 }
    ensures { result ≡ (not triple || is "\"" (get_or text.now (at + 1) 0) && is "\"" (get_or text.now (at + 2) 0)) }
{
    !triple || basics::byte_at(text, at + 1) == b'"' && basics::byte_at(text, at + 2) == b'"'
}

// The length of a closing quote.
fn quote_length(triple: bool) -> usize
    ensures { result ≡ cond triple 3 1 }
{
    if triple { 3 } else { 1 }
}

// Continue lexing inside a string; `first` is the byte there, which the caller has read, and `stop` is the brace in a format string, a quote in a plain
// one. We know that one byte is not a `\` or a closing
// quote for sure, then we take until one is, or until a newline. This ensures that we break up the inner parts of the string into lines, where every
// '\n' occurs at the start of a line. This makes it easy to strip the leading whitespace later in """-strings. An empty line is found without a search.
// Kept: `triple` and no `QuoteStyle`, since the lexer keeps it beside `stop`, and outside strings there is no style.
#[tactic(auto, using(crate::proofs::Quoted::by_first), unfolding(token::specs::Codes::code_of))]
pub fn lex_in_string(first: u8, text: &[u8], at: usize, stop: u8, triple: bool) -> Step
    ensures { step_meant result ≡ anywhere at (inside_by stop triple (first ∷ drop (at + 1) text.now)) }
{
    if LAST <= at {
        return refused_at(Reason::WrongForm, at, at);
    }
    if first == b'\\' {
        return lex_in_escape(text, at);
    }
    if first == b'"' {
        if closes_string(text, at, triple) {
            return lexeme_to(at + quote_length(triple), Token::QuoteClose);
        }
    } else if first == stop {
        return lexeme_to(at + 1, Token::HoleOpen);
    }
    if (first == b'\n') & (basics::byte_at(text, at + 1) == b'\n') {
        return lexeme_to(at + 1, Token::StringInner);
    }
    lexeme_to(scan::inner_end(text, at + 1, stop), Token::StringInner)
}
