// What C is given: answers of the library as structs of words, and what a caller's words tell. Kept: numbers for kinds, refusals and yes or no, as C has them.
#![tactic(auto)]

mod lexing;
mod refusals;
mod strings;
mod walking;

pub use lexing::{CountedWords, LexedWords, TidiedWords, offset};
pub use refusals::{NoteWords, RefusalWords};
pub use strings::{AnswerWords, PartedWords, ValuedWords, part};
pub use walking::{NotKept, SteppedWords, kept, told_by, wrong};
