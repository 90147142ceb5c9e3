// UTF-8 by RFC 3629: whether a text is UTF-8, and where its first bad sequence begins; the bytes of a scalar value.
#![tactic(auto)]

mod character;
mod encoding;

ghost use Rattle.std.specs.Prelude.{◌≡◌, ℕ, ◌+◌, ◌≤◌, ◌<◌, length, All, IsTrue, MatchOption, ◌++◌, Some, codes, decimal};
ghost use Rattle.rules.specs.Utf8.{is_two, is_three, is_four, char_length, first_bad};
ghost use Rattle.rules.specs.Source.{utf8_verdict};
ghost use Rattle.utf8.specs.Meaning.{checked_meant, verdict_meant};
ghost use Rattle.utf8.specs.Ahead.{Passed};
ghost use Rattle.utf8.specs.Blocks.{Follows, AllFollow, Good, Starts, StartsAt, last_boundary};

pub use character::Encoded;
pub use encoding::{encode, is_scalar};
use std::error::Error;
use std::fmt;

// Where the first bad sequence begins: the text is UTF-8 up to there.
#[derive(Clone, Copy, Debug, PartialEq, Eq)]
pub struct Utf8Error {
    pub valid_up_to: usize,
}

impl fmt::Display for Utf8Error {
    ghost output = { λ e. Some (codes "invalid utf-8 sequence at byte " ++ decimal e.valid_up_to) };

    fn fmt<W: fmt::Write>(&self, f: &mut fmt::Formatter<W>) -> fmt::Result {
        write!(f, "invalid utf-8 sequence at byte {}", self.valid_up_to)
    }
}

impl Error for Utf8Error {}

// UTF8-2
#[tactic(auto, unfolding(rules::specs::Utf8::is_two))]
fn two(a: u8, b: u8) -> bool
    ensures { result ≡ is_two a b }
{
    matches!((a, b), (0xC2..=0xDF, 0x80..=0xBF))
}

// UTF8-3
#[tactic(auto, unfolding(rules::specs::Utf8::is_three))]
fn three(a: u8, b: u8, c: u8) -> bool
    ensures { result ≡ is_three a b c }
{
    matches!(
        (a, b, c),
        (0xE0, 0xA0..=0xBF, 0x80..=0xBF)
            | (0xE1..=0xEC, 0x80..=0xBF, 0x80..=0xBF)
            | (0xED, 0x80..=0x9F, 0x80..=0xBF)
            | (0xEE..=0xEF, 0x80..=0xBF, 0x80..=0xBF)
    )
}

// UTF8-4
#[tactic(auto, unfolding(rules::specs::Utf8::is_four))]
fn four(a: u8, b: u8, c: u8, d: u8) -> bool
    ensures { result ≡ is_four a b c d }
{
    matches!(
        (a, b, c, d),
        (0xF0, 0x90..=0xBF, 0x80..=0xBF, 0x80..=0xBF)
            | (0xF1..=0xF3, 0x80..=0xBF, 0x80..=0xBF, 0x80..=0xBF)
            | (0xF4, 0x80..=0x8F, 0x80..=0xBF, 0x80..=0xBF)
    )
}

// How many bytes the character at the front of a text has.
#[tactic(auto, using(crate::proofs::Front::one_byte, crate::proofs::Front::two_bytes, crate::proofs::Front::three_bytes), unfolding(rules::specs::Utf8::char_length))]
fn char_length(text: &[u8]) -> Option<usize>
    ensures { MatchOption result (char_length text.now ≡ 0) (λ n. (0 < n) × (n ≡ char_length text.now)) }
{
    match text {
        [0x00..=0x7F, ..] => Some(1),
        [a, b, ..] if two(*a, *b) => Some(2),
        [a, b, c, ..] if three(*a, *b, *c) => Some(3),
        [a, b, c, d, ..] if four(*a, *b, *c, *d) => Some(4),
        _ => None,
    }
}

// Whether all bytes of a block are ASCII.
// Kept: a `fold`; std's `is_ascii` of a slice takes 3.9 times the instructions on ASCII.
fn is_ascii(block: &[u8]) -> bool
    ensures { IsTrue result → All (λ b. b < 0x80) block.now }
{
    block.iter().fold(true, |all, byte| all & (*byte < 128))
}

// Passes over blocks of ASCII bytes.
#[tactic(auto, using(crate::proofs::Ahead::passed_none, crate::proofs::Ahead::passed_ascii, crate::proofs::Ahead::passed_join))]
fn skip_blocks<const SIZE: usize>(text: &[u8]) -> &[u8]
    requires { 0 < SIZE }
    ensures { Passed text.now result.now }
{
    let mut rest = text;
    // Kept: from block to block by hand; with `chunks_exact` and `take_while`, as with `split_first_chunk`, ASCII takes 4.5 % more instructions.
    while SIZE <= rest.len() && is_ascii(&rest[..SIZE]) {
        rest = &rest[SIZE..];
    }
    rest
}

// Passes over ASCII bytes, far: in blocks of 128, then of 32; only behind one block of 32, since between other characters
// most runs are short.
#[tactic(auto, using(crate::proofs::Ahead::passed_none, crate::proofs::Ahead::passed_ascii, crate::proofs::Ahead::passed_join))]
fn skip_far(text: &[u8]) -> &[u8]
    ensures { Passed text.now result.now }
{
    if text.len() < 32 || !is_ascii(&text[..32]) {
        return text;
    }
    skip_blocks::<32>(skip_blocks::<128>(&text[32..]))
}

// Passes over ASCII bytes, many at a time.
#[tactic(auto, using(crate::proofs::Ahead::passed_join))]
fn skip(text: &[u8]) -> &[u8]
    ensures { Passed text.now result.now }
{
    skip_blocks::<1>(skip_blocks::<8>(skip_far(text)))
}

// Whether `d`, which is F4 at most, can stand behind `a`, `b` and `c`: a tail where a character goes on, ASCII or a first
// byte elsewhere. Tails under A0 do not follow E0, the others do not follow ED; those under 90 do not follow F0, the others
// do not follow F4: by `^` one comparison with `c` serves both. With `d < 0x80` each test is one signed comparison. `due` in
// patterns: by comparisons a block takes 15 % more time.
// Kept: the other tests by comparisons; in patterns they are as fast, and the check finds no proof.
fn follows(a: u8, b: u8, c: u8, d: u8) -> bool
    ensures { IsTrue result → Follows a b c d }
{
    let due = matches!(a, 0xF0..) | matches!(b, 0xE0..) | matches!(c, 0xC0..);
    let tail = (0x80 <= d) & (d <= 0xBF);
    let first = (d < 0x80) | (0xC2 <= d);
    let three = if (d < 0x80) | (0xA0 <= d) {
        0xE0 ^ 0xED
    } else {
        0
    };
    let four = if (d < 0x80) | (0x90 <= d) {
        0xF0 ^ 0xF4
    } else {
        0
    };
    (due & tail | !due & first) & (c ^ three != 0xE0) & (c ^ four != 0xF0)
}

// Whether each byte of a block can stand behind the three before it.
// Kept: an index; with `windows(4)` and a `fold` a block takes 6 % more instructions.
fn all_follow(block: &[u8]) -> bool
    ensures { IsTrue result → AllFollow block.now }
{
    let mut all = true;
    for j in 3..block.len() {
        all &= follows(block[j - 3], block[j - 2], block[j - 1], block[j]);
    }
    all
}

// The largest byte of a block.
fn largest(block: &[u8]) -> u8
    ensures { All (λ b. b ≤ result) block.now }
{
    block.iter().copied().max().unwrap_or(0)
}

// Whether a text can begin with three bytes.
fn starts(a: u8, b: u8, c: u8) -> bool
    ensures { IsTrue result → Starts a b c }
{
    (a <= 0xF4)
        & (b <= 0xF4)
        & (c <= 0xF4)
        & follows(0, 0, 0, a)
        & follows(0, 0, a, b)
        & follows(0, a, b, c)
}

// The place behind the three bytes at a position, or that of the character among them that goes on behind them.
fn last_boundary(text: &[u8], at: usize) -> usize
    requires { at + 3 ≤ length text.now }
    ensures { result ≡ last_boundary text.now at }
{
    match &text[at..at + 3] {
        [_, _, 0xC0..=0xFF] => at + 2,
        [_, 0xE0..=0xFF, _] => at + 1,
        [0xF0..=0xFF, _, _] => at,
        _ => at + 3,
    }
}

// So many bytes are tested at a time where characters of any length stand.
const BLOCK: usize = 64;

// Whether a block that begins behind three other bytes is good, and more than ASCII.
#[tactic(auto, using(crate::proofs::Reading::good_block))]
fn mixed(block: &[u8]) -> bool
    requires { 3 ≤ length block.now }
    ensures { IsTrue result → Good block.now }
{
    let most = largest(&block[3..]);
    0x80 <= most && most <= 0xF4 && all_follow(block)
}

// Passes over blocks in which characters of any length stand.
fn skip_mixed_blocks(text: &[u8]) -> &[u8]
    requires { (3 ≤ length text.now) × StartsAt text.now 0 }
    ensures { Passed text.now result.now }
{
    // Kept: from block to block by hand, as in `skip_blocks`: each block is looked at with the three bytes before it.
    let mut i = 0;
    while BLOCK + 3 <= text.len() - i && mixed(&text[i..i + BLOCK + 3]) {
        i += BLOCK;
    }
    &text[last_boundary(text, i)..]
}

// Passes over characters of any length in blocks, unless ASCII bytes come next.
// Kept: what is left and no `Option`, as of each `skip`; what it passes over may be nothing.
fn skip_mixed(text: &[u8]) -> &[u8]
    ensures { Passed text.now result.now }
{
    if text.len() < BLOCK + 3
        || is_ascii(&text[3..3 + BLOCK])
        || !starts(text[0], text[1], text[2])
    {
        return text;
    }
    skip_mixed_blocks(text)
}

// What is left behind the ASCII bytes or the characters at the front of a text; none where no character begins.
#[tactic(auto, using(crate::proofs::Ahead::passed_ascii_byte, crate::proofs::Ahead::passed_character, crate::proofs::Ahead::char_inside))]
fn next(text: &[u8]) -> Option<&[u8]>
    requires { 0 < length text.now }
    ensures { MatchOption result (char_length text.now ≡ 0) (λ rest. (length rest.now < length text.now) × Passed text.now rest.now) }
{
    if text[0] < 128 {
        return Some(skip(&text[1..]));
    }
    let rest = skip_mixed(text);
    if rest.len() < text.len() {
        return Some(rest);
    }
    Some(&text[char_length(text)?..])
}

// Goes over the text piece by piece: in blocks, and one character at a time where no block fits.
#[tactic(auto, using(crate::proofs::Ahead::passed_none, crate::proofs::Ahead::passed_join, crate::proofs::Ahead::bad_answer, crate::proofs::Ahead::good_answer))]
pub fn check(text: &[u8]) -> Result<(), Utf8Error>
    ensures first_bad { checked_meant result ≡ first_bad text.now }
    ensures verdict { (doc : ℕ) → verdict_meant doc result ≡ utf8_verdict doc text.now }
{
    // Kept: each piece is what `next` passed over, so no iterator of std has these pieces.
    let mut rest = text;
    while !rest.is_empty() {
        let Some(behind) = next(rest) else {
            return Err(Utf8Error {
                valid_up_to: text.len() - rest.len(),
            });
        };
        rest = behind;
    }
    Ok(())
}
