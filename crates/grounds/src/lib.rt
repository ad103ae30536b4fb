// The grounds on which opening is refused: definitions and theorems. The one type serves the code that opens.
#![tactic(auto)]

// How many, for each output that opening writes; or for how many it has room.
#[derive(Clone, Copy)]
pub struct Counts {
    pub store: usize,
    pub output: usize,
}
