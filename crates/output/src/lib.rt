// Writing to a lent output. "An output ends at 2^48 − 1 bytes at most"; "a piece is written whole or not".
#![tactic(auto)]

ghost use Rattle.std.specs.Prelude.{◌≡◌, ◌++◌, ◌+◌, cond, leb, length, Ok, Err, Some, codes};
ghost use Rattle.rules.specs.Output.{end_of};
ghost use Rattle.output.specs.Places.{full, Put};

use rules::LIMIT;
use std::error::Error;
use std::fmt;

// The piece does not fit the output.
#[derive(Clone, Copy, Debug, PartialEq, Eq)]
pub struct Full;

impl fmt::Display for Full {
    ghost output = { λ full. Some (codes "the piece does not fit the output") };

    fn fmt<W: fmt::Write>(&self, f: &mut fmt::Formatter<W>) -> fmt::Result {
        f.write_str("the piece does not fit the output")
    }
}

impl Error for Full {}

// Where an output ends.
pub fn end(output: &[u8]) -> usize
    ensures { result ≡ end_of output.now }
{
    output.len().min(LIMIT)
}

// Whether so many bytes fit at a position before an end.
pub fn fits(end: usize, position: usize, bytes: usize) -> bool
    ensures { result ≡ leb (position + bytes) end }
{
    position.checked_add(bytes).is_some_and(|next| next <= end)
}

// Writes a piece over as many bytes.
// Kept: by places; `copy_from_slice` is no plainer here, and makes the archive need `memmove` beside `memcpy`.
fn copy(bytes: &mut [u8], piece: &[u8])
    requires { length bytes.old ≡ length piece.now }
    ensures { bytes.new ≡ piece.now }
{
    for i in 0..piece.len() {
        bytes[i] = piece[i];
    }
}

// A lent output, and the position where writing goes on.
#[derive(Drop)]
pub struct Output<'a> {
    pub bytes: &'a mut [u8],
    pub at: usize,
}

impl Output<'_> {
    // Where it ends.
    pub fn end(&self) -> usize
        ensures { result ≡ end_of self.now.bytes.now }
    {
        end(self.bytes)
    }

    // The position behind so many bytes, where they fit before its end.
    fn behind(&self, bytes: usize) -> Result<usize, Full>
        ensures { result ≡ cond (leb (self.now.at + bytes) (end_of self.now.bytes.now)) (Ok (self.now.at + bytes)) (Err full) }
    {
        if !fits(self.end(), self.at, bytes) {
            return Err(Full);
        }
        Ok(self.at + bytes)
    }

    // Writes a piece, whole or not.
    pub fn put(&mut self, piece: &[u8]) -> Result<(), Full>
        ensures { Put piece.now self.old result self.new }
    {
        let next = self.behind(piece.len())?;
        copy(&mut self.bytes[self.at..next], piece);
        self.at = next;
        Ok(())
    }

    // The same for a piece whose bytes stand in two places.
    #[tactic(auto, using(crate::proofs::Overwritten::two_parts))]
    pub fn put_two(&mut self, first: &[u8], second: &[u8]) -> Result<(), Full>
        ensures { Put (first.now ++ second.now) self.old result self.new }
    {
        let next = self.behind(first.len() + second.len())?;
        let middle = self.at + first.len();
        copy(&mut self.bytes[self.at..middle], first);
        copy(&mut self.bytes[middle..next], second);
        self.at = next;
        Ok(())
    }
}
