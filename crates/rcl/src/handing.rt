// Handing a value back: the check of its part.
ghost use Rattle.std.specs.Prelude.{◌≡◌};
ghost use Rattle.rules.specs.Value.{hand_check};
ghost use Rattle.words.specs.Strings.{answer_in, canonical_answer, held_in, or_zero};

use words::AnswerWords;

// Whether a part of a text or of an output, as the value call answered it, stands there.
#[tactic(auto, using(crate::proofs::Noteless::hand_noteless))]
#[unsafe(no_mangle)]
pub extern "C" fn rcl_hand_check(
    text: &[u8],
    output: &[u8],
    which: u64,
    start: usize,
    end: usize,
) -> AnswerWords
    ensures meaning { answer_in result ≡ or_zero (hand_check text.now output.now (held_in which start end)) }
    ensures canonical { result ≡ canonical_answer result }
{
    let part = words::part(which, start, end);
    AnswerWords::from(hand::check(text, output, part).map(|()| 0))
}
