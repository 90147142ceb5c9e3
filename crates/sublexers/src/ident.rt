// RCL -- A reasonable configuration language.
// Copyright 2023 Ruud van Asseldonk
// Licensed under the Apache License, Version 2.0 (the "License"): see NOTICE.
// From src/lexer.rs of RCL, changed: on bytes, and only words as long as a keyword are looked up.

// Identifiers and keywords.
ghost use Rattle.std.specs.Prelude.{◌≡◌, ◌+◌, ◌-◌, ◌≤◌, max, length, drop};
ghost use Rattle.rules.specs.Names.{is_keyword};
ghost use Rattle.rules.specs.Step.{give_back, keyword_or_ident};
ghost use Rattle.token.specs.Codes.{code_of};
ghost use Rattle.sublexers.specs.Outcome.{outcome, step_meant};
ghost use Rattle.sublexers.specs.Words.{is_identifier_byte_in, identifier_by};

use crate::{Step, lexeme_to};
use rules::class::{DIGIT, LETTER};
use scan::ByteClass;
use token::Token;

// ASCII letters, digits, `_` and `-`, by the class that the table has.
#[derive(Clone, Copy)]
struct IdentByte<'a> {
    table: &'a [u8; 256],
}

impl ByteClass for IdentByte<'_> {
    ghost passes = { λ class. is_identifier_byte_in class.table.now };

    fn has(self, b: u8) -> bool {
        let class = token::class(self.table, b);
        (class == LETTER) | (class == DIGIT) | (b == b'-')
    }
}

// An identifier may not end with `-`, unconsume every one. This is to ensure that in a case like `Number->String`, this parses as two idents
// with a thin arrow in between. The rule really is that an identifier may not end with `-`, it's not that `->` takes precedence: with that
// `x-->y` would parse as ident `x-`, which would be invalid everywhere else.
// Kept: counted down, since where it comes to is the answer; `rev().take_while(..).count()` would count what is given back, and take it off.
#[tactic(auto, using(crate::proofs::Identifier::back_none, crate::proofs::Identifier::back_more, crate::proofs::Identifier::back_stop, crate::proofs::Identifier::back_done))]
fn give_back(text: &[u8], at: usize, end: usize) -> usize
    requires { (at ≤ end) × (end ≤ max at (length text.now)) }
    ensures { result ≡ at + give_back (drop at text.now) (end - at) }
{
    let mut end = end;
    while at < end && text[end - 1] == b'-' {
        end -= 1;
    }
    end
}

// Return which keyword the bytes are, or identifier otherwise.
#[tactic(auto, unfolding(token::specs::Codes::code_of, rules::specs::Step::keyword_or_ident))]
fn get_keyword_or_ident(ident: &[u8]) -> Token
    ensures { code_of result ≡ keyword_or_ident ident.now }
{
    match ident {
        b"and" => Token::KwAnd,
        b"assert" => Token::KwAssert,
        b"else" => Token::KwElse,
        b"false" => Token::KwFalse,
        b"for" => Token::KwFor,
        b"if" => Token::KwIf,
        b"import" => Token::KwImport,
        b"in" => Token::KwIn,
        b"let" => Token::KwLet,
        b"not" => Token::KwNot,
        b"null" => Token::KwNull,
        b"or" => Token::KwOr,
        b"trace" => Token::KwTrace,
        b"true" => Token::KwTrue,
        _ => Token::Ident,
    }
}

#[tactic(auto, using(crate::proofs::Identifier::identifier_steps), unfolding(token::specs::Codes::code_of, crate::specs::Words::identifier_by))]
pub(crate) fn lex_in_ident(table: &[u8; 256], text: &[u8], at: usize) -> Step
    ensures { step_meant result ≡ outcome at (identifier_by (is_identifier_byte_in table.now) (drop at text.now)) }
{
    let run = scan::run_end(text, at, IdentByte { table });
    let end = give_back(text, at, run);
    let size = end - at;
    if (size < 2) | (6 < size) {
        return lexeme_to(end, Token::Ident);
    }
    lexeme_to(end, get_keyword_or_ident(&text[at..end]))
}

// Return whether the bytes are a keyword.
#[tactic(auto, unfolding(token::specs::Codes::code_of, rules::specs::Names::is_keyword))]
pub fn is_keyword(ident: &[u8]) -> bool
    ensures { result ≡ is_keyword ident.now }
{
    !matches!(get_keyword_or_ident(ident), Token::Ident)
}
