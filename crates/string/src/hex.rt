// Hexadecimal digits.
ghost use Rattle.std.specs.Prelude.{◌≡◌, true, ◌≤◌, ◌<◌, length};
ghost use Rattle.rules.specs.Text.{all};
ghost use Rattle.rules.specs.Bytes.{is_hex_digit};
ghost use Rattle.rules.specs.Escapes.{hex_digit, hex_value};

// The value of a digit.
#[tactic(auto, unfolding(rules::specs::Escapes::hex_digit, rules::specs::Bytes::is_hex_digit, rules::specs::Bytes::is_digit, rules::specs::Bytes::is_capital))]
fn hex_digit(b: u8) -> u32
    requires { is_hex_digit b ≡ true }
    ensures value { result ≡ hex_digit b }
    ensures small { result < 16 }
{
    match b {
        ..=b'9' => u32::from(b - b'0'),
        ..=b'F' => u32::from(b - b'A' + 10),
        _ => u32::from(b - b'a' + 10),
    }
}

// Whether every byte is a digit.
pub(crate) fn all_hex_digits(bytes: &[u8]) -> bool
    ensures { result ≡ all is_hex_digit bytes.now }
{
    bytes.iter().all(|b| scan::is_hex_digit(*b))
}

// The number that at most six digits make up, the first the highest.
#[tactic(auto, using(crate::proofs::Digits::all_at, crate::proofs::Digits::hex_more, crate::proofs::Digits::hex_done, crate::proofs::Digits::power_more, crate::proofs::Digits::power_six))]
pub(crate) fn hex_value(digits: &[u8]) -> u32
    requires { (length digits.now ≤ 6) × (all is_hex_digit digits.now ≡ true) }
    ensures { result ≡ hex_value digits.now }
{
    let mut n = 0;
    for b in digits {
        n = n * 16 + hex_digit(*b);
    }
    n
}
