// RCL -- A reasonable configuration language.
// Copyright 2023 Ruud van Asseldonk
// Licensed under the Apache License, Version 2.0 (the "License"): see NOTICE.
// From src/lexer.rs of RCL, changed: kinds have codes, both ways; `Eof`, which no lexer gives, is left out.

#![tactic(auto)]

// The kinds of lexemes, what can be open, and their codes; the class of each byte value.
ghost use Rattle.std.specs.Prelude.{◌≡◌, ◌||◌, ◌++◌, eqb, get_or, Some, codes, decimal};
ghost use Rattle.rules.specs.Bytes.{class_of};
ghost use Rattle.rules.specs.Reasons.{number_of};
ghost use Rattle.rules.specs.Kinds.{HoleOpen, is_quote_open, is_triple, is_escape, is_opener, is_closer};
ghost use Rattle.rules.specs.Lexing.{unclosed};
ghost use Rattle.token.specs.Codes.{quote_code, escape_code, code_of, state_code, token_meant, state_meant, if_kind, if_opener, joins_next};
ghost use Rattle.token.specs.declared.StringPrefix.TheVariants.{None, Format};
ghost use Rattle.token.specs.Table.{IsTable};

use rules::class::{CONTROL, DIGIT, LETTER, OVER127, PUNCTUATION, WHITESPACE};
use rules::{Reason, kind};
use std::error::Error;
use std::fmt;

// What quote style a string literal is quoted in (`"` or `"""`).
#[derive(Clone, Copy, Debug, PartialEq, Eq)]
pub enum QuoteStyle {
    // A string delimited by double quotes (`"`).
    Double,
    // A string delimited by triple double quotes (`"""`).
    Triple,
}

// An escape sequence inside a string literal.
#[derive(Clone, Copy, Debug, PartialEq, Eq)]
pub enum Escape {
    // A single-character escape sequence, e.g. `\n` or `\\`.
    Single,
    // A `\u` escape sequence followed by 4 hex digits.
    Unicode4,
    // A `\u{...}` escape sequence.
    UnicodeDelim,
}

// Whether a string literal is a format string or a regular string.
#[derive(Clone, Copy, Debug, PartialEq, Eq)]
pub enum StringPrefix {
    // No prefix, just the quotes: a regular string literal.
    None,
    // An `f` prefix that indicates a format string.
    Format,
}

#[derive(Clone, Copy, Debug, PartialEq, Eq)]
pub enum Token {
    // A sequence of ascii whitespace not significant for reformatting. Note, this token gets discarded from the result, it is there for internal use in the lexer on only.
    Space,
    // A sequence of ascii whitespace that contains at least two newlines.
    Blank,
    // A line that starts with `#!`, and runs until the end of the line. Excludes the newline itself.
    Shebang,
    // A comment that starts with `//` and runs until the end of the line. Excludes the newline itself.
    LineComment,
    // A sequence of ascii alphanumeric or _, not starting with a digit.
    Ident,
    // An opening quote of a string, either `"`, `f"`, `"""`, or `f"""`.
    QuoteOpen(StringPrefix, QuoteStyle),
    // A closing quote of a string, either `"` or `"""`.
    QuoteClose,
    // An inner part of a string literal or format string.
    StringInner,
    // An escape sequence inside a string literal.
    Escape(Escape),
    // The `{` that opens a hole inside an f-string.
    HoleOpen,
    // The `}` that closes a hole inside an f-string.
    HoleClose,
    // A hexadecimal integer literal prefixed by `0x`.
    NumHexadecimal,
    // A binary integer literal prefixed by `0b`.
    NumBinary,
    // A decimal number literal, same as allowed by json.
    NumDecimal,
    // `and`
    KwAnd,
    // `assert`
    KwAssert,
    // `false`
    KwFalse,
    // `for`
    KwFor,
    // `else`
    KwElse,
    // `if`
    KwIf,
    // `import`
    KwImport,
    // `in`
    KwIn,
    // `let`
    KwLet,
    // `not`
    KwNot,
    // `null`
    KwNull,
    // `or`
    KwOr,
    // `trace`
    KwTrace,
    // `true`
    KwTrue,
    // `(`
    LParen,
    // `)`
    RParen,
    // `[`
    LBracket,
    // `]`
    RBracket,
    // `{`
    LBrace,
    // `}`
    RBrace,
    // `<`
    Lt,
    // `>`
    Gt,
    // `<=`
    LtEq,
    // `>=`
    GtEq,
    // `==` (two equals signs)
    Eq2,
    // `!=`
    Neq,
    // `->`
    ThinArrow,
    // `=>`
    FatArrow,
    // `=` (a single equals sign)
    Eq1,
    // `!`
    Bang,
    // `*`
    Star,
    // `+`
    Plus,
    // `,`
    Comma,
    // `-`
    Minus,
    // `.`
    Dot,
    // `..`
    DotDot,
    // `...`
    DotDotDot,
    // `/`
    Slash,
    // `:`
    Colon,
    // `;`
    Semicolon,
    // `|`
    Pipe,
}

// A state in the state stack of the lexer: what is open.
#[derive(Clone, Copy, Debug, PartialEq, Eq)]
pub enum State {
    // Inside a `{}` in expression context.
    Brace,
    // Inside a `()` in expression context.
    Paren,
    // Inside a `[]` in expression context.
    Bracket,
    // Inside a string literal.
    String(QuoteStyle),
    // Inside an f-string (in the string part, not the hole part).
    Format(QuoteStyle),
    // Inside a hole in an f-string.
    Hole,
}

// A code that is no kind's.
#[derive(Clone, Copy, Debug, PartialEq, Eq)]
pub struct UnknownKind(pub u8);

impl fmt::Display for UnknownKind {
    ghost output = { λ unknown. Some (codes "no kind of lexeme has code " ++ decimal unknown.0) };

    fn fmt<W: fmt::Write>(&self, f: &mut fmt::Formatter<W>) -> fmt::Result {
        write!(f, "no kind of lexeme has code {}", self.0)
    }
}

impl Error for UnknownKind {}

impl QuoteStyle {
    // Whether the quotes are triple.
    pub fn is_triple(self) -> bool
        ensures { (result ≡ is_triple (quote_code None self)) × (result ≡ is_triple (quote_code Format self)) }
    {
        self == QuoteStyle::Triple
    }
}

impl State {
    // Whether what was opened is a string.
    #[tactic(auto, unfolding(crate::specs::Codes::state_code))]
    pub fn is_string(self) -> bool
        ensures { result ≡ is_quote_open (state_code self) }
    {
        matches!(self, State::String(_) | State::Format(_))
    }

    // Whether what was opened is a string in triple quotes.
    #[tactic(auto, unfolding(crate::specs::Codes::state_code))]
    pub fn is_triple(self) -> bool
        ensures { result ≡ is_triple (state_code self) }
    {
        match self {
            State::String(style) | State::Format(style) => style.is_triple(),
            State::Brace | State::Paren | State::Bracket | State::Hole => false,
        }
    }

    // Whether what was opened is a string or a hole.
    #[tactic(auto, unfolding(crate::specs::Codes::state_code))]
    pub fn is_string_or_hole(self) -> bool
        ensures { result ≡ (is_quote_open (state_code self) || eqb (state_code self) HoleOpen) }
    {
        self.is_string() || self == State::Hole
    }
}

// The code of an opening quote.
pub fn quote_code(prefix: StringPrefix, style: QuoteStyle) -> u8
    ensures { result ≡ quote_code prefix style }
{
    match (prefix, style) {
        (StringPrefix::None, QuoteStyle::Double) => kind::PLAIN_DOUBLE,
        (StringPrefix::None, QuoteStyle::Triple) => kind::PLAIN_TRIPLE,
        (StringPrefix::Format, QuoteStyle::Double) => kind::FORMAT_DOUBLE,
        (StringPrefix::Format, QuoteStyle::Triple) => kind::FORMAT_TRIPLE,
    }
}

impl From<Escape> for u8 {
    ghost from_gives = { λ escape code. code ≡ escape_code escape };

    fn from(escape: Escape) -> u8 {
        match escape {
            Escape::Single => kind::SINGLE,
            Escape::Unicode4 => kind::UNICODE4,
            Escape::UnicodeDelim => kind::UNICODE_DELIM,
        }
    }
}

// The kind code of a token.
impl From<Token> for u8 {
    ghost from_gives = { λ token code. code ≡ code_of token };

    #[tactic(auto, unfolding(crate::specs::Codes::code_of))]
    #[inline(always)]
    fn from(token: Token) -> u8 {
        match token {
            Token::Space => kind::SPACE,
            Token::Blank => kind::BLANK,
            Token::Shebang => kind::SHEBANG,
            Token::LineComment => kind::LINE_COMMENT,
            Token::Ident => kind::IDENT,
            Token::QuoteOpen(prefix, style) => quote_code(prefix, style),
            Token::QuoteClose => kind::QUOTE_CLOSE,
            Token::StringInner => kind::STRING_INNER,
            Token::Escape(escape) => u8::from(escape),
            Token::HoleOpen => kind::HOLE_OPEN,
            Token::HoleClose => kind::HOLE_CLOSE,
            Token::NumHexadecimal => kind::NUM_HEXADECIMAL,
            Token::NumBinary => kind::NUM_BINARY,
            Token::NumDecimal => kind::NUM_DECIMAL,
            Token::KwAnd => kind::KW_AND,
            Token::KwAssert => kind::KW_ASSERT,
            Token::KwFalse => kind::KW_FALSE,
            Token::KwFor => kind::KW_FOR,
            Token::KwElse => kind::KW_ELSE,
            Token::KwIf => kind::KW_IF,
            Token::KwImport => kind::KW_IMPORT,
            Token::KwIn => kind::KW_IN,
            Token::KwLet => kind::KW_LET,
            Token::KwNot => kind::KW_NOT,
            Token::KwNull => kind::KW_NULL,
            Token::KwOr => kind::KW_OR,
            Token::KwTrace => kind::KW_TRACE,
            Token::KwTrue => kind::KW_TRUE,
            Token::LParen => kind::L_PAREN,
            Token::RParen => kind::R_PAREN,
            Token::LBracket => kind::L_BRACKET,
            Token::RBracket => kind::R_BRACKET,
            Token::LBrace => kind::L_BRACE,
            Token::RBrace => kind::R_BRACE,
            Token::Lt => kind::LT,
            Token::Gt => kind::GT,
            Token::LtEq => kind::LT_EQ,
            Token::GtEq => kind::GT_EQ,
            Token::Eq2 => kind::EQ2,
            Token::Neq => kind::NEQ,
            Token::ThinArrow => kind::THIN_ARROW,
            Token::FatArrow => kind::FAT_ARROW,
            Token::Eq1 => kind::EQ1,
            Token::Bang => kind::BANG,
            Token::Star => kind::STAR,
            Token::Plus => kind::PLUS,
            Token::Comma => kind::COMMA,
            Token::Minus => kind::MINUS,
            Token::Dot => kind::DOT,
            Token::DotDot => kind::DOT_DOT,
            Token::DotDotDot => kind::DOT_DOT_DOT,
            Token::Slash => kind::SLASH,
            Token::Colon => kind::COLON,
            Token::Semicolon => kind::SEMICOLON,
            Token::Pipe => kind::PIPE,
        }
    }
}

// The token of a kind code.
impl TryFrom<u8> for Token {
    type Error = UnknownKind;

    ghost try_from_gives = { λ code result. token_meant result ≡ if_kind code };

    #[tactic(auto, unfolding(crate::specs::Codes::code_of, crate::specs::Codes::token_meant, crate::specs::Codes::if_kind))]
    fn try_from(code: u8) -> Result<Token, UnknownKind> {
        match code {
            kind::SPACE => Ok(Token::Space),
            kind::BLANK => Ok(Token::Blank),
            kind::SHEBANG => Ok(Token::Shebang),
            kind::LINE_COMMENT => Ok(Token::LineComment),
            kind::IDENT => Ok(Token::Ident),
            kind::PLAIN_DOUBLE => Ok(Token::QuoteOpen(StringPrefix::None, QuoteStyle::Double)),
            kind::PLAIN_TRIPLE => Ok(Token::QuoteOpen(StringPrefix::None, QuoteStyle::Triple)),
            kind::FORMAT_DOUBLE => Ok(Token::QuoteOpen(StringPrefix::Format, QuoteStyle::Double)),
            kind::FORMAT_TRIPLE => Ok(Token::QuoteOpen(StringPrefix::Format, QuoteStyle::Triple)),
            kind::QUOTE_CLOSE => Ok(Token::QuoteClose),
            kind::STRING_INNER => Ok(Token::StringInner),
            kind::SINGLE => Ok(Token::Escape(Escape::Single)),
            kind::UNICODE4 => Ok(Token::Escape(Escape::Unicode4)),
            kind::UNICODE_DELIM => Ok(Token::Escape(Escape::UnicodeDelim)),
            kind::HOLE_OPEN => Ok(Token::HoleOpen),
            kind::HOLE_CLOSE => Ok(Token::HoleClose),
            kind::NUM_HEXADECIMAL => Ok(Token::NumHexadecimal),
            kind::NUM_BINARY => Ok(Token::NumBinary),
            kind::NUM_DECIMAL => Ok(Token::NumDecimal),
            kind::KW_AND => Ok(Token::KwAnd),
            kind::KW_ASSERT => Ok(Token::KwAssert),
            kind::KW_FALSE => Ok(Token::KwFalse),
            kind::KW_FOR => Ok(Token::KwFor),
            kind::KW_ELSE => Ok(Token::KwElse),
            kind::KW_IF => Ok(Token::KwIf),
            kind::KW_IMPORT => Ok(Token::KwImport),
            kind::KW_IN => Ok(Token::KwIn),
            kind::KW_LET => Ok(Token::KwLet),
            kind::KW_NOT => Ok(Token::KwNot),
            kind::KW_NULL => Ok(Token::KwNull),
            kind::KW_OR => Ok(Token::KwOr),
            kind::KW_TRACE => Ok(Token::KwTrace),
            kind::KW_TRUE => Ok(Token::KwTrue),
            kind::L_PAREN => Ok(Token::LParen),
            kind::R_PAREN => Ok(Token::RParen),
            kind::L_BRACKET => Ok(Token::LBracket),
            kind::R_BRACKET => Ok(Token::RBracket),
            kind::L_BRACE => Ok(Token::LBrace),
            kind::R_BRACE => Ok(Token::RBrace),
            kind::LT => Ok(Token::Lt),
            kind::GT => Ok(Token::Gt),
            kind::LT_EQ => Ok(Token::LtEq),
            kind::GT_EQ => Ok(Token::GtEq),
            kind::EQ2 => Ok(Token::Eq2),
            kind::NEQ => Ok(Token::Neq),
            kind::THIN_ARROW => Ok(Token::ThinArrow),
            kind::FAT_ARROW => Ok(Token::FatArrow),
            kind::EQ1 => Ok(Token::Eq1),
            kind::BANG => Ok(Token::Bang),
            kind::STAR => Ok(Token::Star),
            kind::PLUS => Ok(Token::Plus),
            kind::COMMA => Ok(Token::Comma),
            kind::MINUS => Ok(Token::Minus),
            kind::DOT => Ok(Token::Dot),
            kind::DOT_DOT => Ok(Token::DotDot),
            kind::DOT_DOT_DOT => Ok(Token::DotDotDot),
            kind::SLASH => Ok(Token::Slash),
            kind::COLON => Ok(Token::Colon),
            kind::SEMICOLON => Ok(Token::Semicolon),
            kind::PIPE => Ok(Token::Pipe),
            _ => Err(UnknownKind(code)),
        }
    }
}

// The code of the opener that opens a state.
impl From<State> for u8 {
    ghost from_gives = { λ state code. code ≡ state_code state };

    #[tactic(auto, unfolding(crate::specs::Codes::state_code))]
    fn from(state: State) -> u8 {
        match state {
            State::Brace => kind::L_BRACE,
            State::Paren => kind::L_PAREN,
            State::Bracket => kind::L_BRACKET,
            State::String(style) => quote_code(StringPrefix::None, style),
            State::Format(style) => quote_code(StringPrefix::Format, style),
            State::Hole => kind::HOLE_OPEN,
        }
    }
}

// The state that an opener's code opens; none where it is no opener's. Kept: an `Option` and no `TryFrom`, since callers keep it as it is: that nothing is open is no error.
// Kept: a match beside the one of `opened_by`; by that of the code's token lexing takes 7 to 24 % more instructions.
#[tactic(auto, unfolding(crate::specs::Codes::state_code, crate::specs::Codes::state_meant, crate::specs::Codes::if_opener, rules::specs::Kinds::is_opener))]
pub fn state_of(kind: u8) -> Option<State>
    ensures { state_meant result ≡ if_opener kind }
{
    match kind {
        kind::PLAIN_DOUBLE => Some(State::String(QuoteStyle::Double)),
        kind::PLAIN_TRIPLE => Some(State::String(QuoteStyle::Triple)),
        kind::FORMAT_DOUBLE => Some(State::Format(QuoteStyle::Double)),
        kind::FORMAT_TRIPLE => Some(State::Format(QuoteStyle::Triple)),
        kind::HOLE_OPEN => Some(State::Hole),
        kind::L_PAREN => Some(State::Paren),
        kind::L_BRACKET => Some(State::Bracket),
        kind::L_BRACE => Some(State::Brace),
        _ => None,
    }
}

// What a token opens; nothing where it is no opener.
// Kept: a match beside the one of `state_of`; by that of the token's code lexing takes up to 1.5 % more instructions.
#[tactic(auto, unfolding(crate::specs::Codes::state_code, crate::specs::Codes::state_meant, crate::specs::Codes::if_opener, crate::specs::Codes::code_of, rules::specs::Kinds::is_opener))]
pub fn opened_by(token: Token) -> Option<State>
    ensures { state_meant result ≡ if_opener (code_of token) }
{
    match token {
        Token::QuoteOpen(StringPrefix::None, style) => Some(State::String(style)),
        Token::QuoteOpen(StringPrefix::Format, style) => Some(State::Format(style)),
        Token::HoleOpen => Some(State::Hole),
        Token::LParen => Some(State::Paren),
        Token::LBracket => Some(State::Bracket),
        Token::LBrace => Some(State::Brace),
        _ => None,
    }
}

// Whether a kind is QuoteOpen: what it opens is a string.
// Kept: a match here, in `is_triple` and in `opens_string_or_hole`: `State` is what tells what a quote opened, and with `is_some_and` the check finds no proof.
pub fn is_quote_open(kind: u8) -> bool
    ensures { result ≡ is_quote_open kind }
{
    match state_of(kind) {
        Some(state) => state.is_string(),
        None => false,
    }
}

// Whether a kind opens a string in triple quotes.
pub fn is_triple(kind: u8) -> bool
    ensures { result ≡ is_triple kind }
{
    match state_of(kind) {
        Some(state) => state.is_triple(),
        None => false,
    }
}

// Whether it is an escape sequence.
pub fn is_escape(kind: u8) -> bool
    ensures { result ≡ is_escape kind }
{
    matches!(kind, kind::SINGLE..=kind::UNICODE_DELIM)
}

// "Openers (QuoteOpen, HoleOpen)" of a string's parts: the brackets of an expression are none.
pub fn opens_string_or_hole(kind: u8) -> bool
    ensures { result ≡ (is_quote_open kind || eqb kind HoleOpen) }
{
    match state_of(kind) {
        Some(state) => state.is_string_or_hole(),
        None => false,
    }
}

// "QuoteOpen, StringInner, Escape or HoleClose": what follows is the string's. By codes, since the tidy writer asks it of every lexeme.
#[tactic(auto, unfolding(crate::specs::Codes::joins_next))]
pub fn joins_next(kind: u8) -> bool
    ensures { result ≡ joins_next kind }
{
    matches!(
        kind,
        kind::PLAIN_DOUBLE..=kind::FORMAT_TRIPLE
            | kind::STRING_INNER..=kind::UNICODE_DELIM
            | kind::HOLE_CLOSE
    )
}

// Whether a lexeme opens: codes 5 to 8, 14, 33, 35, 37. Kept: by comparisons, here and in `closes`; with `matches!` the loop of `lex` takes 2 % more instructions on the move table, and misses twice the Rust there with both lists warm.
#[tactic(auto, unfolding(rules::specs::Kinds::is_opener))]
pub fn opens(kind: u8) -> bool
    ensures { result ≡ is_opener kind }
{
    (kind::PLAIN_DOUBLE <= kind) & (kind <= kind::FORMAT_TRIPLE)
        | (kind == kind::HOLE_OPEN)
        | (kind == kind::L_PAREN)
        | (kind == kind::L_BRACKET)
        | (kind == kind::L_BRACE)
}

// Whether it closes: codes 9, 15, 34, 36, 38.
#[tactic(auto, unfolding(rules::specs::Kinds::is_closer))]
pub fn closes(kind: u8) -> bool
    ensures { result ≡ is_closer kind }
{
    (kind == kind::QUOTE_CLOSE)
        | (kind == kind::HOLE_CLOSE)
        | (kind == kind::R_PAREN)
        | (kind == kind::R_BRACKET)
        | (kind == kind::R_BRACE)
}

// Why an opener that is never closed is refused.
#[tactic(auto, unfolding(rules::specs::Lexing::unclosed))]
pub fn unclosed(kind: u8) -> Reason
    ensures { number_of result ≡ unclosed kind }
{
    match kind {
        kind::HOLE_OPEN => Reason::UnclosedHole,
        kind::FORMAT_DOUBLE | kind::FORMAT_TRIPLE => Reason::UnclosedFormat,
        kind::PLAIN_DOUBLE | kind::PLAIN_TRIPLE => Reason::UnclosedString,
        _ => Reason::UnclosedBracket,
    }
}

// The class of each byte value.
const CLASS: [u8; 256] = [
    CONTROL,
    CONTROL,
    CONTROL,
    CONTROL,
    CONTROL,
    CONTROL,
    CONTROL,
    CONTROL,
    CONTROL,
    WHITESPACE, // TAB
    WHITESPACE, // LF
    CONTROL,
    WHITESPACE, // form feed
    WHITESPACE, // CR
    CONTROL,
    CONTROL,
    CONTROL,
    CONTROL,
    CONTROL,
    CONTROL,
    CONTROL,
    CONTROL,
    CONTROL,
    CONTROL,
    CONTROL,
    CONTROL,
    CONTROL,
    CONTROL,
    CONTROL,
    CONTROL,
    CONTROL,
    CONTROL,
    WHITESPACE, // space
    PUNCTUATION,
    PUNCTUATION,
    PUNCTUATION,
    PUNCTUATION,
    PUNCTUATION,
    PUNCTUATION,
    PUNCTUATION,
    PUNCTUATION,
    PUNCTUATION,
    PUNCTUATION,
    PUNCTUATION,
    PUNCTUATION,
    PUNCTUATION,
    PUNCTUATION,
    PUNCTUATION,
    DIGIT, // `0`
    DIGIT,
    DIGIT,
    DIGIT,
    DIGIT,
    DIGIT,
    DIGIT,
    DIGIT,
    DIGIT,
    DIGIT,
    PUNCTUATION,
    PUNCTUATION,
    PUNCTUATION,
    PUNCTUATION,
    PUNCTUATION,
    PUNCTUATION,
    PUNCTUATION,
    LETTER, // `A`
    LETTER,
    LETTER,
    LETTER,
    LETTER,
    LETTER,
    LETTER,
    LETTER,
    LETTER,
    LETTER,
    LETTER,
    LETTER,
    LETTER,
    LETTER,
    LETTER,
    LETTER,
    LETTER,
    LETTER,
    LETTER,
    LETTER,
    LETTER,
    LETTER,
    LETTER,
    LETTER,
    LETTER,
    LETTER,
    PUNCTUATION,
    PUNCTUATION,
    PUNCTUATION,
    PUNCTUATION,
    LETTER, // `_`
    PUNCTUATION,
    LETTER, // `a`
    LETTER,
    LETTER,
    LETTER,
    LETTER,
    LETTER,
    LETTER,
    LETTER,
    LETTER,
    LETTER,
    LETTER,
    LETTER,
    LETTER,
    LETTER,
    LETTER,
    LETTER,
    LETTER,
    LETTER,
    LETTER,
    LETTER,
    LETTER,
    LETTER,
    LETTER,
    LETTER,
    LETTER,
    LETTER,
    PUNCTUATION,
    PUNCTUATION,
    PUNCTUATION,
    PUNCTUATION,
    CONTROL, // DEL
    OVER127, // over 127
    OVER127,
    OVER127,
    OVER127,
    OVER127,
    OVER127,
    OVER127,
    OVER127,
    OVER127,
    OVER127,
    OVER127,
    OVER127,
    OVER127,
    OVER127,
    OVER127,
    OVER127,
    OVER127,
    OVER127,
    OVER127,
    OVER127,
    OVER127,
    OVER127,
    OVER127,
    OVER127,
    OVER127,
    OVER127,
    OVER127,
    OVER127,
    OVER127,
    OVER127,
    OVER127,
    OVER127,
    OVER127,
    OVER127,
    OVER127,
    OVER127,
    OVER127,
    OVER127,
    OVER127,
    OVER127,
    OVER127,
    OVER127,
    OVER127,
    OVER127,
    OVER127,
    OVER127,
    OVER127,
    OVER127,
    OVER127,
    OVER127,
    OVER127,
    OVER127,
    OVER127,
    OVER127,
    OVER127,
    OVER127,
    OVER127,
    OVER127,
    OVER127,
    OVER127,
    OVER127,
    OVER127,
    OVER127,
    OVER127,
    OVER127,
    OVER127,
    OVER127,
    OVER127,
    OVER127,
    OVER127,
    OVER127,
    OVER127,
    OVER127,
    OVER127,
    OVER127,
    OVER127,
    OVER127,
    OVER127,
    OVER127,
    OVER127,
    OVER127,
    OVER127,
    OVER127,
    OVER127,
    OVER127,
    OVER127,
    OVER127,
    OVER127,
    OVER127,
    OVER127,
    OVER127,
    OVER127,
    OVER127,
    OVER127,
    OVER127,
    OVER127,
    OVER127,
    OVER127,
    OVER127,
    OVER127,
    OVER127,
    OVER127,
    OVER127,
    OVER127,
    OVER127,
    OVER127,
    OVER127,
    OVER127,
    OVER127,
    OVER127,
    OVER127,
    OVER127,
    OVER127,
    OVER127,
    OVER127,
    OVER127,
    OVER127,
    OVER127,
    OVER127,
    OVER127,
    OVER127,
    OVER127,
    OVER127,
    OVER127,
    OVER127,
    OVER127,
    OVER127,
    OVER127,
];

// The whole table. A constant array is built anew at each use, so whoever reads many bytes takes it once and lends it to `class`.
pub fn table() -> [u8; 256]
    ensures { IsTable result }
{
    CLASS
}

// The class of a byte, by a table.
pub fn class(table: &[u8; 256], byte: u8) -> u8
    ensures { result ≡ get_or table.now byte 0 }
{
    table[usize::from(byte)]
}

// The class of one byte.
pub fn class_of(byte: u8) -> u8
    ensures { result ≡ class_of byte }
{
    let table = table();
    class(&table, byte)
}
