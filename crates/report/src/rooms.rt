// Room for texts, lists and outputs.
ghost use Rattle.std.specs.Prelude.{◌≡◌, length};

use list::ListMut;

// So many places. Only the length is said, so that nothing computes with so many places.
pub(crate) fn room<T: Copy + Default, const N: usize>() -> [T; N]
    ensures { N ≡ length result }
{
    [T::default(); N]
}

// The two arrays of a list.
// Kept: beside the one of `vectors`, which holds marks and lends beginnings, for many calls; here both are lent whole, to one call.
#[derive(Drop)]
pub(crate) struct Arrays<const KINDS: usize, const WORDS: usize> {
    kinds: [u8; KINDS],
    words: [u64; WORDS],
}

impl<const KINDS: usize, const WORDS: usize> Arrays<KINDS, WORDS> {
    pub(crate) fn new() -> Self {
        Arrays {
            kinds: room(),
            words: room(),
        }
    }

    pub(crate) fn lend(&mut self) -> ListMut<'_>
        ensures kinds { KINDS ≡ length result.kinds.now }
        ensures words { WORDS ≡ length result.words.now }
    {
        ListMut {
            kinds: &mut self.kinds,
            words: &mut self.words,
        }
    }
}
