// How answers are printed.
use list::List;
use rules::Reason;
use source::{Refusal, Span};
use std::fmt::Display;
use std::io::Write;
use std::{fmt, io};

// The two words of a span.
#[derive(Clone, Copy)]
pub(crate) struct Words(pub(crate) Span);

impl Display for Words {
    fn fmt<W: fmt::Write>(&self, f: &mut fmt::Formatter<W>) -> fmt::Result {
        write!(f, "{} {}", self.0.low, self.0.high)
    }
}

// `refused` and the number.
#[derive(Clone, Copy)]
pub(crate) struct Why(pub(crate) Reason);

impl Display for Why {
    fn fmt<W: fmt::Write>(&self, f: &mut fmt::Formatter<W>) -> fmt::Result {
        write!(f, "refused {}", u8::from(self.0))
    }
}

// The same, the span, and the note's span if there is one.
#[derive(Clone, Copy)]
pub(crate) struct Refused(pub(crate) Refusal);

impl Display for Refused {
    fn fmt<W: fmt::Write>(&self, f: &mut fmt::Formatter<W>) -> fmt::Result {
        let refusal = self.0;
        write!(f, "{} {}", Why(refusal.reason), Words(refusal.at))?;
        match refusal.note {
            Some(opener) => write!(f, " {}", Words(opener)),
            None => Ok(()),
        }
    }
}

// Bytes in hexadecimal; `-` for none.
#[derive(Clone, Copy)]
pub(crate) struct Bytes<'a>(pub(crate) &'a [u8]);

impl Display for Bytes<'_> {
    fn fmt<W: fmt::Write>(&self, f: &mut fmt::Formatter<W>) -> fmt::Result {
        if self.0.is_empty() {
            return write!(f, "-");
        }
        for byte in self.0 {
            write!(f, "{byte:02x}")?;
        }
        Ok(())
    }
}

// What a call answers, or what is said of its refusal.
pub(crate) fn print_answer<W: Write, T: Display + Drop, E: Display + Drop>(
    to: &mut W,
    answer: Result<T, E>,
) -> io::Result<()> {
    match answer {
        Ok(given) => write!(to, "{given}"),
        Err(refused) => write!(to, "{refused}"),
    }
}

// The kind and the span of each of the first entries of a list, a space before every number.
pub(crate) fn print_list<W: Write>(to: &mut W, list: List<'_>, entries: usize) -> io::Result<()> {
    for entry in list.first(entries) {
        write!(to, " {} {}", entry.kind, Words(entry.at))?;
    }
    Ok(())
}
