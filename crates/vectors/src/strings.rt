// Identifiers, escapes, indent, parts and values of strings.
use crate::arrays::{Lengths, MARK, Parts, first};
use crate::fields::Fields;
use crate::shown;
use crate::shown::{Bytes, Refused};
use output::Output;
use source::Refusal;
use std::fmt::Display;
use std::io::Write;
use std::{fmt, io};
use value::Held;

// A number that is given.
#[derive(Clone, Copy)]
struct Given(u64);

impl Display for Given {
    fn fmt<W: fmt::Write>(&self, f: &mut fmt::Formatter<W>) -> fmt::Result {
        write!(f, "given {}", self.0)
    }
}

// Where a value stands: `text START END` or `output START END`.
#[derive(Clone, Copy)]
struct Place(Held);

impl Display for Place {
    fn fmt<W: fmt::Write>(&self, f: &mut fmt::Formatter<W>) -> fmt::Result {
        match self.0 {
            Held::Text(start, end) => write!(f, "text {start} {end}"),
            Held::Output(start, end) => write!(f, "output {start} {end}"),
        }
    }
}

fn print_given<W: Write>(to: &mut W, answer: Result<u64, Refusal>) -> io::Result<()> {
    shown::print_answer(to, answer.map(Given).map_err(Refused))
}

pub(crate) fn print_value<W: Write>(to: &mut W, answer: Result<Held, Refusal>) -> io::Result<()> {
    shown::print_answer(to, answer.map(Place).map_err(Refused))
}

// `identifier BYTES`
pub(crate) fn identifier<W: Write>(to: &mut W, mut fields: Fields<'_>) -> io::Result<()> {
    let mut room = [0; 256];
    let is = string::is_identifier(fields.bytes(&mut room));
    write!(to, "{}", u8::from(is))
}

// `keyword BYTES`
pub(crate) fn keyword<W: Write>(to: &mut W, mut fields: Fields<'_>) -> io::Result<()> {
    let mut room = [0; 256];
    let is = sublexers::is_keyword(fields.bytes(&mut room));
    write!(to, "{}", u8::from(is))
}

// `scalar LOW HIGH KIND BYTES`
pub(crate) fn scalar<W: Write>(to: &mut W, mut fields: Fields<'_>) -> io::Result<()> {
    let span = fields.span();
    let kind = fields.kind();
    let mut room = [0; 256];
    let text = fields.bytes(&mut room);
    print_given(to, string::scalar_value(text, span, kind).map(u64::from))
}

// `escape LOW HIGH KIND OUTPUT POSITION BYTES`
pub(crate) fn escape<W: Write>(to: &mut W, mut fields: Fields<'_>) -> io::Result<()> {
    let span = fields.span();
    let kind = fields.kind();
    let mut places = [MARK; 72];
    let output = first(&mut places, fields.size());
    let position = fields.size();
    let mut room = [0; 256];
    let text = fields.bytes(&mut room);
    let mut output = Output {
        bytes: output,
        at: position,
    };
    let answer = string::unescape_into(text, span, kind, &mut output);
    let written = output.at - position;
    print_given(to, answer.map(|()| written as u64))?;
    write!(to, " ; {}", Bytes(output.bytes))
}

// `indent KINDS WORDS COUNT BYTES LIST`
pub(crate) fn indent<W: Write>(to: &mut W, mut fields: Fields<'_>) -> io::Result<()> {
    let lengths = fields.lengths();
    let count = fields.size();
    let mut room = [0; 256];
    let text = fields.bytes(&mut room);
    let list = fields.list();
    let answer = string::count_common_leading_spaces(text, list.lent(lengths), count);
    print_given(to, answer.map(|spaces| spaces as u64))
}

// What a call on the parts of a string is given: the lengths of the list's arrays, the count that is said and the opener's place; and the lengths of the arrays that it is lent for its parts.
#[derive(Clone, Copy)]
struct Case {
    list: Lengths,
    count: usize,
    place: usize,
    parts: Lengths,
}

// The six fields of a case.
fn read_case(fields: &mut Fields<'_>) -> Case {
    Case {
        list: fields.lengths(),
        count: fields.size(),
        place: fields.size(),
        parts: fields.lengths(),
    }
}

// How many parts were put, the parts, and how far the arrays were written.
fn print_parts<W: Write>(to: &mut W, parts: usize, arrays: &Parts) -> io::Result<()> {
    write!(to, " ; {parts} ;")?;
    shown::print_list(to, arrays.list(), parts)?;
    let ends = arrays.ends();
    write!(to, " ; {} {}", ends.kinds, ends.words)
}

// `parts KINDS WORDS COUNT PLACE PKINDS PWORDS LIST`
pub(crate) fn parts<W: Write>(to: &mut W, mut fields: Fields<'_>) -> io::Result<()> {
    let case = read_case(&mut fields);
    let list = fields.list();
    let mut arrays = Parts::marked();
    let mut parts = arrays.lend(case.parts);
    let parted = cst::parts(list.lent(case.list), case.count, case.place, &mut parts);
    print_given(to, parted.answer.map(|place| place as u64))?;
    print_parts(to, parted.parts, &arrays)
}

// `value KINDS WORDS COUNT PLACE PKINDS PWORDS OUTPUT POSITION BYTES LIST`
pub(crate) fn value<W: Write>(to: &mut W, mut fields: Fields<'_>) -> io::Result<()> {
    let case = read_case(&mut fields);
    let mut places = [MARK; 72];
    let output = first(&mut places, fields.size());
    let position = fields.size();
    let mut room = [0; 256];
    let text = fields.bytes(&mut room);
    let list = fields.list();
    let mut arrays = Parts::marked();
    let mut parts = arrays.lend(case.parts);
    let valued = value::value(
        text,
        list.lent(case.list),
        case.count,
        case.place,
        &mut parts,
        output,
        position,
    );
    print_value(to, valued.answer)?;
    print_parts(to, valued.parts, &arrays)?;
    write!(to, " ; {}", Bytes(output))
}
