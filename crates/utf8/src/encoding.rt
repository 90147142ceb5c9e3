// The UTF-8 of a scalar value: RFC 3629, section 3.
ghost use Rattle.std.specs.Prelude.{◌≡◌, cond, []};
ghost use Rattle.rules.specs.Utf8.{is_scalar, encode as encode_rule};
ghost use Rattle.utf8.specs.Meaning.{encoded_meant};

use crate::Encoded;

// Not a surrogate, and not over 0x10FFFF.
#[tactic(auto, unfolding(rules::specs::Utf8::is_scalar))]
pub fn is_scalar(u: u32) -> bool
    ensures { result ≡ is_scalar u }
{
    char::from_u32(u).is_some()
}

// The bytes of a scalar value; none for a number that is none.
#[tactic(auto, using(crate::proofs::Scalars::encode_one, crate::proofs::Scalars::encode_two, crate::proofs::Scalars::encode_three, crate::proofs::Scalars::encode_four, crate::proofs::Scalars::low_scalar, crate::proofs::Scalars::scalar_most))]
pub fn encode(u: u32) -> Encoded
    ensures { encoded_meant result ≡ cond (is_scalar u) (encode_rule u) [] }
{
    match u {
        0x00..=0x7F => Encoded {
            bytes: [u as u8, 0, 0, 0],
            length: 1,
        },
        0x80..=0x7FF => Encoded {
            bytes: [(0xC0 + u / 64) as u8, (0x80 + u % 64) as u8, 0, 0],
            length: 2,
        },
        _ if !is_scalar(u) => Encoded {
            bytes: [0, 0, 0, 0],
            length: 0,
        },
        0x800..=0xFFFF => Encoded {
            bytes: [
                (0xE0 + u / 4096) as u8,
                (0x80 + u / 64 % 64) as u8,
                (0x80 + u % 64) as u8,
                0,
            ],
            length: 3,
        },
        _ => Encoded {
            bytes: [
                (0xF0 + u / 262144) as u8,
                (0x80 + u / 4096 % 64) as u8,
                (0x80 + u / 64 % 64) as u8,
                (0x80 + u % 64) as u8,
            ],
            length: 4,
        },
    }
}
