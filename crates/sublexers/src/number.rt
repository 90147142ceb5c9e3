// RCL -- A reasonable configuration language.
// Copyright 2023 Ruud van Asseldonk
// Licensed under the Apache License, Version 2.0 (the "License"): see NOTICE.
// From src/lexer.rs of RCL, changed: a function for each part of a number, and an error is a numbered refusal.

#![tactic(auto, using(crate::proofs::Numbers::number_steps), unfolding(token::specs::Codes::code_of, rules::specs::Step::is_digit_or_underscore))]

// Numbers: binary, hexadecimal, and decimals as in JSON, without the sign.
ghost use Rattle.std.specs.Prelude.{◌≡◌, cond, ◌||◌, ◌+◌, ◌<◌, length, drop};
ghost use Rattle.rules.specs.Text.{begins};
ghost use Rattle.rules.specs.Reasons.{number_of};
ghost use Rattle.rules.specs.Step.{int_length, exponent, number};
ghost use Rattle.token.specs.Codes.{code_of};
ghost use Rattle.sublexers.specs.Outcome.{outcome, step_meant};
ghost use Rattle.sublexers.specs.ByClass.{fraction_alone, prefixed_by};

use crate::{Step, lexeme_to, refused_at};
use rules::Reason;
use scan::{Binary, ByteClass, Digit, Hex, OrUnderscore, Underscore};
use token::Token;

// Behind a sign, where there is one.
fn sign_end(text: &[u8], at: usize) -> usize
    ensures { result ≡ at + cond (begins "+" (drop at text.now) || begins "-" (drop at text.now)) 1 0 }
{
    match basics::byte_at(text, at) {
        b'+' | b'-' => at + 1,
        _ => at,
    }
}

// Optionally, an exponent.
fn exponent_at(text: &[u8], at: usize) -> Step
    ensures { step_meant result ≡ outcome at (exponent 0 (drop at text.now)) }
{
    if !matches!(basics::byte_at(text, at), b'e' | b'E') {
        return lexeme_to(at, Token::NumDecimal);
    }
    let digits = sign_end(text, at + 1);
    if !scan::is_digit(basics::byte_at(text, digits)) {
        return refused_at(Reason::NoExponentDigit, digits, digits);
    }
    lexeme_to(
        scan::run_end(text, digits, OrUnderscore(Digit)),
        Token::NumDecimal,
    )
}

// Optionally a dot followed by one or more digits ("fraction" in the json spec).
fn fraction_at(text: &[u8], at: usize) -> Step
    ensures { step_meant result ≡ outcome at (fraction_alone (drop at text.now)) }
{
    if basics::byte_at(text, at) != b'.' {
        return lexeme_to(at, Token::NumDecimal);
    }
    if !scan::is_digit(basics::byte_at(text, at + 1)) {
        return refused_at(Reason::NoFractionDigit, at, at + 1);
    }
    lexeme_to(
        scan::run_end(text, at + 1, OrUnderscore(Digit)),
        Token::NumDecimal,
    )
}

// A 0, or a non-zero followed by more digits and underscores.
fn int_end(text: &[u8], at: usize) -> usize
    ensures { result ≡ at + int_length (drop at text.now) }
{
    if basics::byte_at(text, at) == b'0' {
        return at + 1;
    }
    scan::run_end(text, at, OrUnderscore(Digit))
}

// After `0b` or `0x`: we need at least one digit after the prefix; `none` is the reason where there is none.
fn prefixed_at<D: ByteClass>(text: &[u8], at: usize, digits: D, token: Token, none: Reason) -> Step
    requires { at < length text.now }
    ensures { step_meant result ≡ outcome at (prefixed_by (code_of token) (number_of none) (D.passes digits) (drop at text.now)) }
{
    let end = scan::run_end(text, at + 2, digits);
    if scan::run_end(text, at + 2, Underscore) == end {
        return refused_at(none, at, end);
    }
    lexeme_to(end, token)
}

// A number, where a digit stands.
#[tactic(auto, using(crate::proofs::Numbers::whole_number), unfolding(token::specs::Codes::code_of, rules::specs::Step::is_digit_or_underscore))]
pub fn lex_in_number(text: &[u8], at: usize) -> Step
    ensures { step_meant result ≡ outcome at (number (drop at text.now)) }
{
    if basics::byte_at(text, at) == b'0' {
        match basics::byte_at(text, at + 1) {
            b'b' => {
                return prefixed_at(
                    text,
                    at,
                    OrUnderscore(Binary),
                    Token::NumBinary,
                    Reason::NoBinaryDigit,
                );
            }
            b'x' => {
                return prefixed_at(
                    text,
                    at,
                    OrUnderscore(Hex),
                    Token::NumHexadecimal,
                    Reason::NoHexDigit,
                );
            }
            _ => {}
        }
    }
    let fraction = fraction_at(text, int_end(text, at))?;
    exponent_at(text, fraction.end)
}
