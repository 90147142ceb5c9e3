// RCL -- A reasonable configuration language.
// Copyright 2023 Ruud van Asseldonk
// Licensed under the Apache License, Version 2.0 (the "License"): see NOTICE.
// From src/lexer.rs of RCL, changed: the first byte decides, comments and shebangs included, and an error is a numbered refusal.

#![tactic(auto, using(crate::proofs::Punctuation::behind_first), unfolding(token::specs::Codes::code_of, token::specs::Codes::state_code, rules::specs::Step::closer))]

// Punctuation, comments and shebangs, opening quotes, closing brackets.
ghost use Rattle.std.specs.Prelude.{◌≡◌, cond, ◌&&◌, suc, ◌+◌, ◌<◌, ◌^◌, ◌∷◌, eqb, drop, get_or};
ghost use Rattle.rules.specs.Text.{is, begins, run};
ghost use Rattle.rules.specs.Bytes.{is_not_lf};
ghost use Rattle.rules.specs.Refusals.{LoneHash};
ghost use Rattle.rules.specs.Kinds.{Shebang, LineComment, HoleOpen, HoleClose, LBrace, RBrace, Eq2, FatArrow, Eq1, Dot, DotDot, DotDotDot, Slash};
ghost use Rattle.rules.specs.Step.{found as found_rule, stop, closer};
ghost use Rattle.token.specs.Codes.{code_of, state_code, quote_code};
ghost use Rattle.token.specs.declared.QuoteStyle.TheVariants.{Double, Triple};
ghost use Rattle.sublexers.specs.Outcome.{outcome, anywhere, step_meant, innermost_of};
ghost use Rattle.sublexers.specs.ByClass.{punctuated};

use crate::{LAST, Step, lexeme_to, refused_at};
use rules::Reason;
use token::{QuoteStyle, State, StringPrefix, Token};

// A closing delimiter: verify that it is the right one, which closes what is `due`.
#[inline(always)]
fn pop_delimiter(at: usize, top: Option<State>, due: State, token: Token) -> Step
    requires { at + 1 < 2 ^ 64 }
    ensures { step_meant result ≡ outcome at (closer (innermost_of top) (state_code due) (code_of token)) }
{
    match top {
        Some(state) if state == due => lexeme_to(at + 1, token),
        Some(_) => refused_at(Reason::AnotherDue, at, at + 1),
        None => refused_at(Reason::NothingOpen, at, at + 1),
    }
}

// `}`: what it closes depends on whether it was closing an expression or a string interpolation.
fn close_brace(at: usize, top: Option<State>) -> Step
    requires { at + 1 < 2 ^ 64 }
    ensures { step_meant result ≡ outcome at (cond (eqb (innermost_of top) HoleOpen) (found_rule HoleClose 1) (closer (innermost_of top) LBrace RBrace)) }
{
    if top == Some(State::Hole) {
        return lexeme_to(at + 1, Token::HoleClose);
    }
    pop_delimiter(at, top, State::Brace, Token::RBrace)
}

// `"`, or `"""` where two more quotes follow; `before` bytes of a prefix stand before it.
#[inline(always)]
pub(crate) fn open_quote(text: &[u8], at: usize, before: usize, prefix: StringPrefix) -> Step
    requires { at + before + 1 < 2 ^ 64 }
    ensures { step_meant result ≡ outcome at (cond (begins "\"\"" (drop (at + before + 1) text.now)) (found_rule (quote_code prefix Triple) (before + 3)) (found_rule (quote_code prefix Double) (before + 1))) }
{
    let quote = at + before;
    if basics::byte_at(text, quote + 1) == b'"' && basics::byte_at(text, quote + 2) == b'"' {
        return lexeme_to(quote + 3, Token::QuoteOpen(prefix, QuoteStyle::Triple));
    }
    lexeme_to(quote + 1, Token::QuoteOpen(prefix, QuoteStyle::Double))
}

// `.`, `..` or `...`.
fn dots(text: &[u8], at: usize) -> Step
    requires { at + 1 < 2 ^ 64 }
    ensures { step_meant result ≡ outcome at (cond (is "." (get_or text.now (at + 1) 0) && begins "." (drop (at + 2) text.now)) (found_rule DotDotDot 3) (cond (is "." (get_or text.now (at + 1) 0)) (found_rule DotDot 2) (found_rule Dot 1))) }
{
    if basics::byte_at(text, at + 1) != b'.' {
        return lexeme_to(at + 1, Token::Dot);
    }
    if basics::byte_at(text, at + 2) == b'.' {
        return lexeme_to(at + 3, Token::DotDotDot);
    }
    lexeme_to(at + 2, Token::DotDot)
}

// One byte of punctuation, or two where `second` follows it.
#[inline(always)]
fn one_or_two(text: &[u8], at: usize, second: u8, two: Token, one: Token) -> Step
    requires { (at + 1 < 2 ^ 64) × (0 < second) }
    ensures { step_meant result ≡ outcome at (cond (eqb (get_or text.now (at + 1) 0) second) (found_rule (code_of two) 2) (found_rule (code_of one) 1)) }
{
    if basics::byte_at(text, at + 1) == second {
        return lexeme_to(at + 2, two);
    }
    lexeme_to(at + 1, one)
}

// `=`, `==` or `=>`.
fn equals(text: &[u8], at: usize) -> Step
    requires { at + 1 < 2 ^ 64 }
    ensures { step_meant result ≡ outcome at (cond (is "=" (get_or text.now (at + 1) 0)) (found_rule Eq2 2) (cond (is ">" (get_or text.now (at + 1) 0)) (found_rule FatArrow 2) (found_rule Eq1 1))) }
{
    if basics::byte_at(text, at + 1) == b'=' {
        return lexeme_to(at + 2, Token::Eq2);
    }
    one_or_two(text, at, b'>', Token::FatArrow, Token::Eq1)
}

// `//` and what follows it to before the line end, or `/`.
fn slash(text: &[u8], at: usize) -> Step
    requires { at + 1 < 2 ^ 64 }
    ensures { step_meant result ≡ outcome at (cond (is "/" (get_or text.now (at + 1) 0)) (found_rule LineComment (suc (run is_not_lf (drop (at + 1) text.now)))) (found_rule Slash 1)) }
{
    if basics::byte_at(text, at + 1) == b'/' {
        return lexeme_to(scan::line_end(text, at + 1), Token::LineComment);
    }
    lexeme_to(at + 1, Token::Slash)
}

// `#!` and what follows it to before the line end. Comments are written with '//', not with '#'.
fn hash(text: &[u8], at: usize) -> Step
    requires { at + 1 < 2 ^ 64 }
    ensures { step_meant result ≡ outcome at (cond (is "!" (get_or text.now (at + 1) 0)) (found_rule Shebang (suc (run is_not_lf (drop (at + 1) text.now)))) (stop LoneHash 0 1)) }
{
    if basics::byte_at(text, at + 1) == b'!' {
        return lexeme_to(scan::line_end(text, at + 1), Token::Shebang);
    }
    refused_at(Reason::LoneHash, at, at + 1)
}

// Lex a token that starts with ascii punctuation; `first` is the byte there, which the caller has read.
#[tactic(auto, using(crate::proofs::Punctuation::by_first), unfolding(token::specs::Codes::code_of, token::specs::Codes::state_code))]
pub fn lex_in_punct(first: u8, text: &[u8], at: usize, top: Option<State>) -> Step
    ensures { step_meant result ≡ anywhere at (punctuated (innermost_of top) (first ∷ drop (at + 1) text.now)) }
{
    if LAST <= at {
        return refused_at(Reason::WrongForm, at, at);
    }
    match first {
        b'(' => lexeme_to(at + 1, Token::LParen),
        b'[' => lexeme_to(at + 1, Token::LBracket),
        b'{' => lexeme_to(at + 1, Token::LBrace),
        b'*' => lexeme_to(at + 1, Token::Star),
        b'+' => lexeme_to(at + 1, Token::Plus),
        b',' => lexeme_to(at + 1, Token::Comma),
        b':' => lexeme_to(at + 1, Token::Colon),
        b';' => lexeme_to(at + 1, Token::Semicolon),
        b'|' => lexeme_to(at + 1, Token::Pipe),
        b')' => pop_delimiter(at, top, State::Paren, Token::RParen),
        b']' => pop_delimiter(at, top, State::Bracket, Token::RBracket),
        b'}' => close_brace(at, top),
        b'"' => open_quote(text, at, 0, StringPrefix::None),
        b'<' => one_or_two(text, at, b'=', Token::LtEq, Token::Lt),
        b'>' => one_or_two(text, at, b'=', Token::GtEq, Token::Gt),
        b'=' => equals(text, at),
        b'!' => one_or_two(text, at, b'=', Token::Neq, Token::Bang),
        b'-' => one_or_two(text, at, b'>', Token::ThinArrow, Token::Minus),
        b'.' => dots(text, at),
        b'/' => slash(text, at),
        b'#' => hash(text, at),
        _ => refused_at(Reason::UnknownPunctuation, at, at + 1),
    }
}
