// The table of extractors: the range of the name, the number of parameters and the place of each.
ghost use Rattle.std.specs.Prelude.{◌≡◌, ◌<◌, ◌≤◌, length, take, IfSome};
ghost use Rattle.judging.specs.Table.{looked, entry_of, RowRoom};
ghost use Rattle.judging.specs.Whole.{Tabled};

use crate::Flaw;
use crate::lent::Definitions;
use forms::scans::skip;
use names::compare::same_name;
use records::{Ground, rec_at, slots};
use trees::Kind;

#[derive(Clone, Copy)]
pub struct Entry {
    pub name: u64,
    pub arity: usize,
    pub place: usize,
}

// The most extractors that a definition list may have.
pub const MOST: usize = 256;

// A table of none, with room for all.
pub const EMPTY: [Entry; MOST] = [Entry {
    name: 0,
    arity: 0,
    place: 0,
}; MOST];

// Extractors, and the text that their names stand in.
#[derive(Clone, Copy)]
pub struct Extractors<'a> {
    pub text: &'a [u8],
    pub rows: &'a [Entry],
}

impl<'a> Extractors<'a> {
    // The first n of a table.
    pub fn first_of(text: &'a [u8], table: &'a [Entry], n: usize) -> Extractors<'a>
        requires { n ≤ length table.now }
        ensures same_text { result.text.now ≡ text.now }
        ensures first_rows { result.rows.now ≡ take n table.now }
    {
        Extractors {
            text,
            rows: &table[..n],
        }
    }

    // The number of the first that has the name w.
    #[tactic(auto, unfolding(crate::specs::Table::looked))]
    pub fn look_up(&self, w: u64) -> Option<usize>
        ensures first { result ≡ looked self.now.text.now self.now.rows.now w }
        ensures inside { IfSome result (λ x. x < length self.now.rows.now) }
    {
        self.rows
            .iter()
            .position(|row| same_name(self.text, w, row.name))
    }
}

// The row of the Extractor at the index i.
fn entry_at(defs: &[u8], i: usize) -> Entry
    requires { RowRoom defs.now i }
    ensures { result ≡ entry_of defs.now i }
{
    Entry {
        name: rec_at(defs, i + 1).word1,
        arity: rec_at(defs, i).count as usize - 2,
        place: i,
    }
}

// Fills the table with the extractors of a definition list: their number, or 33 at the 257th.
// Kept: the table is lent as a slice with room for so many; an array of just so many would ask more of callers.
pub fn make_table(defs: &Definitions, table: &mut [Entry]) -> Result<usize, Flaw>
    requires { MOST ≤ length table.old }
    ensures { Tabled defs.now.records.now table.new result }
{
    let end = slots(defs.records);
    let mut n = 0;
    let mut i = 0;
    // Kept: where a tree ends is known only once skip has read it, so that no range says the next index.
    while i < end {
        let r = rec_at(defs.records, i);
        if r.kind != Kind::Extractor as u8 {
            i = skip(defs.records, i, 1);
            continue;
        }
        if n == MOST {
            return Err(Flaw {
                reason: Ground::TooManyExtractors,
                place: i,
            });
        }
        table[n] = entry_at(defs.records, i);
        n += 1;
        i = skip(defs.records, i, 1);
    }
    Ok(n)
}
