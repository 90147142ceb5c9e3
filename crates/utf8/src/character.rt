// The bytes of one character.
ghost use Rattle.std.specs.Prelude.{◌≤◌};

// The first `length` of four bytes. Kept: an array with a length; there is no heap, and the bytes of a scalar value that is checked nowhere are no `char`.
#[derive(Clone, Copy, Debug)]
pub struct Encoded {
    pub bytes: [u8; 4],
    pub length: usize,
    pub ghost length_in_bounds: { length ≤ 4 },
}

impl Encoded {
    ghost use Rattle.std.specs.Prelude.{◌≡◌, length};
    ghost use Rattle.utf8.specs.Meaning.{encoded_meant};

    // The bytes that the character has.
    pub fn as_bytes(&self) -> &[u8]
        ensures value { result.now ≡ encoded_meant self.now }
        ensures len { length result.now ≡ self.now.length }
    {
        &self.bytes[..self.length]
    }
}
