// Names of the text: two compared, and the first of a row of names that is the one sought.
#![tactic(auto)]

pub mod compare;
pub mod lengths;
pub mod order;
pub mod places;
pub mod row;
pub mod seek;
