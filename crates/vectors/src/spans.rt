// The calls on spans.
use crate::fields::Fields;
use crate::shown;
use crate::shown::{Why, Words};
use source::{Refusal, Span};
use std::fmt::Display;
use std::io;
use std::io::Write;

// What a call answers, or the number of its refusal.
fn print<W: Write, T: Display + Drop>(to: &mut W, answer: Result<T, Refusal>) -> io::Result<()> {
    shown::print_answer(to, answer.map_err(|refusal| Why(refusal.reason)))
}

fn print_span<W: Write>(to: &mut W, answer: Result<Span, Refusal>) -> io::Result<()> {
    print(to, answer.map(Words))
}

// `span CALL ARGUMENTS`: `new ID START END`, `doc LOW HIGH`, `trim_start LOW HIGH N`, `until LOW HIGH LOW HIGH` and the like; any other word is `union`.
pub(crate) fn span<W: Write>(to: &mut W, mut fields: Fields<'_>) -> io::Result<()> {
    match fields.word() {
        b"new" => print_span(to, Span::new(fields.doc(), fields.size(), fields.size())),
        b"doc" => write!(to, "{}", fields.span().doc()),
        b"start" => write!(to, "{}", fields.span().start()),
        b"end" => write!(to, "{}", fields.span().end()),
        b"len" => print(to, fields.span().len()),
        b"trim_start" => print_span(to, fields.span().trim_start(fields.size())),
        b"trim_end" => print_span(to, fields.span().trim_end(fields.size())),
        b"until" => print_span(to, fields.span().until(fields.span())),
        _ => print_span(to, fields.span().union(fields.span())),
    }
}
