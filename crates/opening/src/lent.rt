// What is lent to a call of opening.
use judging::table::Extractors;

// The outputs: the store of the opened templates, and the output of the opened pattern.
#[derive(Drop)]
pub struct Outputs<'a> {
    pub store: &'a mut [u8],
    pub out: &'a mut [u8],
}

// What is opened: a pattern by the extractors of definitions.
#[derive(Clone, Copy)]
pub struct Request<'a> {
    pub known: Extractors<'a>,
    pub defs: &'a [u8],
    pub pattern: &'a [u8],
}
