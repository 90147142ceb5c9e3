// The fields of a line: words, numbers and bytes in hexadecimal, one space between two.
use crate::arrays;
use crate::arrays::{Lengths, Parts};
use list::Entry;
use source::Span;

// A number and one more byte of its field: what is no digit is skipped, and what would grow past 2^64 - 1 stays as it is.
fn grown(n: u64, b: u8) -> u64 {
    match char::from(b).to_digit(10) {
        Some(digit) => n
            .checked_mul(10)
            .and_then(|tens| tens.checked_add(u64::from(digit)))
            .unwrap_or(n),
        None => n,
    }
}

// Whether a byte is a hexadecimal digit, in lower case.
fn is_digit(b: &u8) -> bool {
    matches!(*b, b'0'..=b'9' | b'a'..=b'f')
}

// The byte of two digits; 0 where one of them is none.
fn byte_of(pair: &[u8]) -> u8 {
    if !pair.iter().all(is_digit) {
        return 0;
    }
    let digits = str::from_utf8(pair).unwrap_or("");
    u8::from_str_radix(digits, 16).unwrap_or_default()
}

// What is left of a line, whose fields are read one after another.
#[derive(Clone, Copy)]
pub(crate) struct Fields<'a> {
    rest: &'a [u8],
}

impl<'a> Fields<'a> {
    pub(crate) fn of(line: &'a [u8]) -> Fields<'a> {
        Fields { rest: line }
    }

    // The next field; nothing behind the last.
    pub(crate) fn word(&mut self) -> &'a [u8] {
        let rest = self.rest;
        match rest.iter().position(|b| *b == b' ') {
            Some(end) => {
                self.rest = &rest[end + 1..];
                &rest[..end]
            }
            None => {
                self.rest = &rest[rest.len()..];
                rest
            }
        }
    }

    // A number, of the field's digits; 0 where it has none.
    pub(crate) fn number(&mut self) -> u64 {
        self.word().iter().fold(0, |n, b| grown(n, *b))
    }

    // The same as a length or a place.
    pub(crate) fn size(&mut self) -> usize {
        self.number() as usize
    }

    // The same as a document's id, mod 2^32.
    pub(crate) fn doc(&mut self) -> u32 {
        (self.number() % 0x1_0000_0000) as u32
    }

    // The same as a kind, mod 2^8.
    pub(crate) fn kind(&mut self) -> u8 {
        (self.number() % 0x100) as u8
    }

    // The two words of a span.
    pub(crate) fn span(&mut self) -> Span {
        Span {
            low: self.number(),
            high: self.number(),
        }
    }

    // How many places of a list's two arrays a call is lent.
    pub(crate) fn lengths(&mut self) -> Lengths {
        Lengths {
            kinds: self.size(),
            words: self.size(),
        }
    }

    // Bytes, as many as there is room for, up to the first that doesn't begin with a digit: none of `-`.
    // Read from all that is left: a pair that begins with the field's last digit ends behind the field, and what follows it is read on.
    pub(crate) fn bytes<'r>(&mut self, room: &'r mut [u8]) -> &'r [u8] {
        let pairs = self.rest.chunks_exact(2);
        let digits = pairs.take_while(|pair| pair.iter().take(1).all(is_digit));
        let bytes = arrays::first(room, digits.count());
        for (byte, pair) in bytes.iter_mut().zip(self.rest.chunks_exact(2)) {
            *byte = byte_of(pair);
        }
        self.word();
        bytes
    }

    // The list that goes to the line's end: `KIND LOW HIGH KIND LOW HIGH ..`, as much of it as there is room for.
    pub(crate) fn list(&mut self) -> Parts {
        let mut arrays = Parts::marked();
        let mut list = arrays.whole();
        for place in 0..list.list().places() {
            if self.rest.is_empty() {
                break;
            }
            let entry = Entry {
                kind: self.kind(),
                at: self.span(),
            };
            list.put(place, entry);
        }
        arrays
    }
}
