// Replays the fixed list of inputs that oracle/vectors wrote: runs the call that each line names and prints its answer, a line each. The gate holds
// what is printed to the file stdout, which has the answers of the Rust and, where it has none, of the judge. A line of another kind is printed as it is.
#![tactic(auto)]

mod arrays;
mod documents;
mod fields;
mod lexes;
mod shown;
mod spaces;
mod spans;
mod strings;
mod tallies;
mod texts;
mod tidied;
mod walks;

ghost use Rattle.std.specs.Prelude.{◌≡◌, ◌≤◌, length, IfOk};

use fields::Fields;
use std::io;
use std::io::{Read, Write};

// One line of the list, without its line end.
fn replay<W: Write>(to: &mut W, line: &[u8]) -> io::Result<()> {
    let mut fields = Fields::of(line);
    match fields.word() {
        b"utf8" => texts::utf8(to, fields)?,
        b"span" => spans::span(to, fields)?,
        b"lex" => lexes::lex(to, fields)?,
        b"tally" => tallies::tallied(to, fields)?,
        b"document" => documents::document(to, fields)?,
        b"whitespace" => spaces::whitespace(to, fields)?,
        b"identifier" => strings::identifier(to, fields)?,
        b"keyword" => strings::keyword(to, fields)?,
        b"scalar" => strings::scalar(to, fields)?,
        b"escape" => strings::escape(to, fields)?,
        b"indent" => strings::indent(to, fields)?,
        b"parts" => strings::parts(to, fields)?,
        b"value" => strings::value(to, fields)?,
        b"tidy" => tidied::tidy(to, fields)?,
        b"hand" => tidied::hand(to, fields)?,
        b"walk" => walks::walk(to, fields)?,
        _ => to.write_all(line)?,
    }
    to.write_all(b"\n")
}

// Every line.
fn replay_all<W: Write>(to: &mut W, list: &[u8]) -> io::Result<()> {
    for line in list.split_inclusive(|b| *b == b'\n') {
        replay(to, line.strip_suffix(b"\n").unwrap_or(line))?;
    }
    to.flush()
}

// So many places. Only the length is said, so that nothing computes with so many places. Kept: beside the one of `report`, on which this program doesn't stand.
fn room<const PLACES: usize>() -> [u8; PLACES]
    ensures { PLACES ≡ length result }
{
    [0; PLACES]
}

// Reads the list to its end, as much of it as there is room for.
// Kept: beside `read_text` of `report`, which is for texts: there a full room is a text that is too long, and here it is the list as far as it goes.
fn read_input<R: Read>(from: &mut R, room: &mut [u8]) -> io::Result<usize>
    ensures { IfOk result (λ n. n ≤ length room.new) }
{
    let mut done: usize = 0;
    while done < room.len() {
        let more = from.read(&mut room[done..])?;
        if more == 0 {
            break;
        }
        done += more;
    }
    Ok(done)
}

fn main(rt: HostRuntime) -> io::Result<()> {
    let mut list: [u8; 786432] = room();
    let n = read_input(&mut rt.stdin(), &mut list)?;
    replay_all(&mut rt.stdout(), &list[..n])
}
