// The UTF-8 check.
use crate::fields::Fields;
use std::io;
use std::io::Write;

// `utf8 BYTES`: `ok`, or where the first bad sequence begins.
pub(crate) fn utf8<W: Write>(to: &mut W, mut fields: Fields<'_>) -> io::Result<()> {
    let mut room = [0; 256];
    match utf8::check(fields.bytes(&mut room)) {
        Ok(()) => to.write_all(b"ok"),
        Err(error) => write!(to, "{}", error.valid_up_to),
    }
}
