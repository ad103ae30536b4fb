// Whether a lent list of records is of its kind, and scans of such lists.
#![tactic(auto)]

pub mod depth;
pub mod judge;
pub mod scans;
mod stack;
pub mod table;

ghost use Rattle.std.specs.Prelude.{◌≡◌, ◌<◌, eqb};
ghost use Rattle.forms.specs.Sorts.{number};
ghost use Rattle.forms.specs.Table.{columns_of};
ghost use Rattle.forms.specs.Forms.{placed, singles};
ghost use Rattle.forms.specs.Depth.{is_level};

// What may stand in a place, by the names of ast.rs. The numbers are those of the rows of specs/Kinds.antt.
#[derive(Clone, Copy, Debug, PartialEq, Eq)]
pub enum Sort {
    Pattern = 1,
    Expression = 2,
    LetDef = 3,
    Ident = 4,
    Definition = 5,
    TypeValue = 6,
    Variant = 7,
    Fields = 8,
    StructField = 9,
    TupleField = 10,
    AttrKind = 11,
    Priority = 12,
    IfLet = 13,
}

impl Sort {
    pub fn number(self) -> u8
        ensures { result ≡ number self }
    {
        self as u8
    }

    // What stands on the stack where this sort is expected at the place p among its parent's children: its number, and a TupleField's
    // place, so that only the record with that index may stand there.
    #[tactic(auto, using(crate::proofs::JudgeLaws::placed_field, crate::proofs::JudgeLaws::placed_other))]
    fn placed(self, p: usize) -> u32
        requires { p < 65536 }
        ensures { result ≡ placed (number self) p }
    {
        match self {
            Sort::TupleField => 10 + 256 * p as u32,
            _ => self.number() as u32,
        }
    }

    // Whether a tree of this sort is one level deeper than what it stands in.
    fn is_level(self) -> bool
        ensures { result ≡ is_level (number self) }
    {
        matches!(self, Sort::Pattern | Sort::Expression)
    }

    // Whether s, from the stack, is this sort at the place p.
    #[tactic(auto, using(crate::proofs::JudgeLaws::is_field, crate::proofs::JudgeLaws::is_far, crate::proofs::JudgeLaws::is_other))]
    fn is_placed(self, s: u32, p: u64) -> bool
        ensures { result ≡ eqb s (placed (number self) p) }
    {
        match self {
            Sort::TupleField => p < 16777216 && s as u64 == 10 + 256 * p,
            _ => s == self.number() as u32,
        }
    }
}

// What words 1 and 2 hold: nothing; a number in word 1; a number in both; in word 1 a range of the text.
#[derive(Clone, Copy, Debug, PartialEq, Eq)]
pub enum Words {
    Empty,
    Index,
    Integer,
    Range,
}

// What a kind's records look like: their sort, how many numbers their flags may be, whether they have a position, what
// their words hold; then their children: three single ones, any number of a sort, a last one.
#[derive(Clone, Copy)]
pub struct Row {
    pub sort: Sort,
    pub flags: u8,
    pub position: bool,
    pub words: Words,
    pub first: Option<Sort>,
    pub second: Option<Sort>,
    pub third: Option<Sort>,
    pub any: Option<Sort>,
    pub last: Option<Sort>,
}

impl Row {
    // How many single children it has.
    fn singles(self) -> usize
        ensures { result ≡ singles (columns_of self) }
    {
        self.first.is_some() as usize
            + self.second.is_some() as usize
            + self.third.is_some() as usize
            + self.last.is_some() as usize
    }
}
