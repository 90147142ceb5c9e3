// A text that is read and answered.
ghost use Rattle.std.specs.Prelude.{◌<◌, ◌≤◌, ◌≡◌, ◌^◌, length, OnOk, IfSome};
ghost use Rattle.std.specs.Io.KnownBytes.{Appends};
ghost use Rattle.report.specs.Printed.{over_line};
ghost use Rattle.report.specs.Reading.{Answers};

use crate::print::Failed;
use crate::rooms::room;
use crate::{input, print};
use std::io;
use std::io::{Read, Write};

// Reads a text of fewer than `N` bytes and has it answered by `write`; a longer one is refused.
pub(crate) fn answer<const N: usize, I: Read, R: Write, F: FnMut(&[u8], &mut R) -> io::Result<()>>(
    from: &mut I,
    refusals: &mut R,
    write: &mut F,
) -> Result<(), Failed>
    requires size { N < 2 ^ 63 }
    requires callable { F.IsAlwaysCallable write.old }
    ensures answered { OnOk result (IfSome (I.remaining from.old) (λ text. length text < N → Answers F.FnMut write.old text refusals.old write.new refusals.new)) }
    ensures over { OnOk result (IfSome (I.remaining from.old) (λ text. N ≤ length text →
        Appends (R.contents refusals.old) (R.contents refusals.new) over_line × (write.new ≡ write.old))) }
{
    let mut room: [u8; N] = room();
    let written = match input::read_text(from, &mut room)? {
        Some(text) => write(text, refusals),
        None => print::refuse_over(refusals),
    };
    written.map_err(|_| Failed::Unwritten)
}
