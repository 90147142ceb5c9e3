// Runs of whitespace, measured.
use crate::fields::Fields;
use scan::Measured;
use std::io;
use std::io::Write;

// Length, line ends and bytes looked at.
fn print<W: Write>(to: &mut W, run: Measured) -> io::Result<()> {
    write!(to, "{} {} {}", run.length, run.lines, run.looked)
}

// `whitespace POSITION BYTES`: the run there, as a step measures it, and as it is measured behind a lexeme.
pub(crate) fn whitespace<W: Write>(to: &mut W, mut fields: Fields<'_>) -> io::Result<()> {
    let mut room = [0; 256];
    let at = fields.size();
    let text = fields.bytes(&mut room);
    print(to, scan::whitespace(text, at))?;
    to.write_all(b" ")?;
    print(to, scan::whitespace_behind(text, at))
}
