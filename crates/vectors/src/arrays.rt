// The arrays that calls are lent the beginnings of, and where they were written.
use list::{List, ListMut};

// What their places hold before a call, so that it is seen where one writes.
pub(crate) const MARK: u8 = 0xEE;

pub(crate) const MARKED: u64 = 0xEEEE_EEEE_EEEE_EEEE;

// The first places of an array, as far as it has so many.
pub(crate) fn first<T>(array: &mut [T], places: usize) -> &mut [T] {
    let end = places.min(array.len());
    &mut array[..end]
}

// Where what was written ends: behind the last place that does not hold the mark any more.
fn end<T: PartialEq + Copy>(array: &[T], mark: T) -> usize {
    match array.iter().rposition(|item| *item != mark) {
        Some(last) => last + 1,
        None => 0,
    }
}

// So many places of a list's two arrays.
#[derive(Clone, Copy)]
pub(crate) struct Lengths {
    pub(crate) kinds: usize,
    pub(crate) words: usize,
}

// The two arrays of a list. Kept: beside the one of `report`, which has no marks and lends the whole arrays of one call.
#[derive(Drop)]
pub(crate) struct Arrays<const KINDS: usize, const WORDS: usize> {
    kinds: [u8; KINDS],
    words: [u64; WORDS],
}

// The arrays of a string's parts, or of a few lexemes.
pub(crate) type Parts = Arrays<48, 96>;

impl<const KINDS: usize, const WORDS: usize> Arrays<KINDS, WORDS> {
    pub(crate) fn marked() -> Self {
        Arrays {
            kinds: [MARK; KINDS],
            words: [MARKED; WORDS],
        }
    }

    // Their beginnings, to be filled.
    pub(crate) fn lend(&mut self, lengths: Lengths) -> ListMut<'_> {
        ListMut {
            kinds: first(&mut self.kinds, lengths.kinds),
            words: first(&mut self.words, lengths.words),
        }
    }

    // Both, whole, to be filled.
    pub(crate) fn whole(&mut self) -> ListMut<'_> {
        ListMut {
            kinds: &mut self.kinds,
            words: &mut self.words,
        }
    }

    // Their beginnings, to be read.
    pub(crate) fn lent(&self, lengths: Lengths) -> List<'_> {
        let kinds = lengths.kinds.min(KINDS);
        let words = lengths.words.min(WORDS);
        List {
            kinds: &self.kinds[..kinds],
            words: &self.words[..words],
        }
    }

    // Both, whole, to be read.
    pub(crate) fn list(&self) -> List<'_> {
        List {
            kinds: &self.kinds,
            words: &self.words,
        }
    }

    // Where they were written.
    pub(crate) fn ends(&self) -> Lengths {
        Lengths {
            kinds: end(&self.kinds, MARK),
            words: end(&self.words, MARKED),
        }
    }
}
