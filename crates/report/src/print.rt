// Refusals, written to a writer `to`, and what is told where something cannot be read or written. A function that writes a piece of an answer answers an error where it could not; after one
// that could not, nothing more of the answer is written.
ghost use Rattle.std.specs.Prelude.{◌≡◌, ◌++◌, OnOk, Some, codes};
ghost use Rattle.std.specs.Io.KnownBytes.{Appends, Keeps};
ghost use Rattle.source.specs.Meaning.{refusal_meant};
ghost use Rattle.report.specs.Printed.{message, refusal_line, over_line};

use rules::Reason;
use source::Refusal;
use std::error::Error;
use std::io::Write;
use std::{fmt, io};

// Why there is no answer, or not all of one.
#[derive(Clone, Copy, Debug, PartialEq, Eq)]
pub enum Failed {
    Unread,
    Unwritten,
}

impl fmt::Display for Failed {
    ghost output = { λ failed. Some (message failed) };

    fn fmt<W: fmt::Write>(&self, f: &mut fmt::Formatter<W>) -> fmt::Result {
        match self {
            Failed::Unread => write!(f, "standard input could not be read"),
            Failed::Unwritten => write!(f, "the answer could not be written"),
        }
    }
}

impl Error for Failed {}

impl Failed {
    // The message with its line end, in one piece: told in one write, so that no other program's line comes between the two where they share a log.
    fn line(self) -> &'static [u8]
        ensures { result.now ≡ message self ++ codes "\n" }
    {
        match self {
            Failed::Unread => b"standard input could not be read\n",
            Failed::Unwritten => b"the answer could not be written\n",
        }
    }
}

// Says on standard error why there is no answer. Where that fails too there is no place left to say so.
pub(crate) fn told<E: Write>(answered: Result<(), Failed>, errors: &mut E) -> Result<(), Failed>
    ensures same { result ≡ answered }
    ensures quiet { OnOk result (Keeps (E.contents errors.old) (E.contents errors.new)) }
{
    if let Err(failed) = answered {
        let _ = errors.write_all(failed.line());
    }
    answered
}

pub(crate) fn end_line<W: Write>(to: &mut W) -> io::Result<()>
    ensures { OnOk result (Appends (W.contents to.old) (W.contents to.new) (codes "\n")) }
{
    to.write_all(b"\n")
}

// The refusal's line, as the whole answer.
pub(crate) fn refuse<W: Write>(to: &mut W, refusal: Refusal) -> io::Result<()>
    ensures { OnOk result (Appends (W.contents to.old) (W.contents to.new) (refusal_line (refusal_meant refusal))) }
{
    writeln!(to, "{refusal}")?;
    to.flush()
}

// Of a text over the program's limit: refusal 2, at 0-0.
pub(crate) fn refuse_over<W: Write>(to: &mut W) -> io::Result<()>
    ensures { OnOk result (Appends (W.contents to.old) (W.contents to.new) over_line) }
{
    refuse(to, source::refuse(Reason::TooLong, source::nowhere()))
}
