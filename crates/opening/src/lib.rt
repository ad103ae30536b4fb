// Opening: the records of a source with each call replaced by its extractor's opened template.
#![tactic(auto)]

pub mod ends;
pub mod lent;
pub mod made;
pub mod store;
pub mod walk;
pub mod whole;

// Which of the two outputs is written.
#[derive(Clone, Copy, Debug, PartialEq, Eq)]
pub enum Side {
    Store,
    Output,
}
