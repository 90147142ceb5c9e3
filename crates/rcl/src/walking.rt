// The walker.
ghost use Rattle.std.specs.Prelude.{◌≡◌};
ghost use Rattle.rules.specs.Lent.{arrays};
ghost use Rattle.rules.specs.Walker.{kept_of};
ghost use Rattle.words.specs.Walking.{kept_as, told_by, walking_told, canonical_stepped, StepsTo};

use list::ListMut;
use words::{RefusalWords, SteppedWords};

// What a walker keeps that is opened with a text.
#[tactic(auto, using(crate::proofs::Kept::opening_said))]
#[unsafe(no_mangle)]
pub extern "C" fn rcl_walker_open(doc: u32, text: &[u8]) -> RefusalWords
    ensures { result ≡ kept_as doc (kept_of text.now) }
{
    words::kept(doc, walker::open_from(text))
}

// One step of a walker.
#[unsafe(no_mangle)]
pub extern "C" fn rcl_walker_step(
    doc: u32,
    text: &[u8],
    position: usize,
    depth: usize,
    kept: u64,
    number: u8,
    low: u64,
    high: u64,
    skinds: &mut [u8],
    swords: &mut [u64],
) -> SteppedWords
    ensures steps_to { StepsTo (walking_told text.now doc position depth (told_by doc kept number low high) (arrays skinds.old swords.old)) result (arrays skinds.new swords.new) }
    ensures canonical { result ≡ canonical_stepped result }
{
    let told = RefusalWords {
        refused: kept,
        number: u64::from(number),
        low,
        high,
    };
    let Ok(kept) = words::told_by(doc, told) else {
        return words::wrong(doc, text.len(), position, depth);
    };
    let mut stack = ListMut {
        kinds: skinds,
        words: swords,
    };
    SteppedWords::from(walker::step_from(doc, text, position, depth, kept, &mut stack))
}
