// The input.
ghost use Rattle.std.specs.Prelude.{IfSome, length};
ghost use Rattle.report.specs.Reading.{Reads};

use crate::print::Failed;
use std::io::Read;

// Reads the input to its end, and gives the text: nothing where it fills the room, which has a byte more than the longest text. A read that fails ends it, since the next one may say
// that the input has ended (a connection that was reset does), and what was read before it is no whole text.
// Kept: by hand, since there is no heap for `read_to_end`, `read_exact` does not say how many bytes there were before the end, and of a slice that `io::copy` fills std does not say what it holds.
#[tactic(auto, using(crate::proofs::Room::read_more))]
pub(crate) fn read_text<'a, R: Read>(
    from: &mut R,
    room: &'a mut [u8],
) -> Result<Option<&'a [u8]>, Failed>
    ensures { IfSome (R.remaining from.old) (Reads result (length room.old)) }
{
    let mut done: usize = 0;
    while done < room.len() {
        let more = from.read(&mut room[done..]).map_err(|_| Failed::Unread)?;
        if more == 0 {
            return Ok(Some(&room[..done]));
        }
        done += more;
    }
    Ok(None)
}
