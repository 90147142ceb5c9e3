// What the programs do: they read a text from a reader, standard input, and write its listing, its tidied text, or the refusal's line. A read or write that fails ends them: nothing is written
// after it but a line on standard error that says so.
#![tactic(auto)]

mod answer;
mod input;
mod listed;
mod print;
mod rooms;
mod tidied;

pub use listed::print_listing;
pub use print::Failed;
pub use tidied::print_tidied;
