// Judging: the table of extractors, the stages of each, all of a definition list, and a pattern after it.
#![tactic(auto)]

pub mod calls;
pub mod extractors;
pub mod lent;
pub mod table;
pub mod whole;

use records::Ground;

// What is wrong first: on which ground a call is refused, and at which place.
#[derive(Clone, Copy, Debug, PartialEq, Eq)]
pub struct Flaw {
    pub reason: Ground,
    pub place: usize,
}
