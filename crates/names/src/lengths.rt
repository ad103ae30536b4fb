// The lengths of names: which are sought for the parameters of a template, and whether a row of names has a long one.
ghost use Rattle.std.specs.Prelude.{◌≡◌, ◌<◌, ◌≤◌, length, IsTrue};
ghost use Rattle.records.specs.Slots.{slots};

use crate::order::mark;
use crate::row::Names;
use records::{rec_at, rec_there};
use trees::Kind;

// Whether a name is sought for the record at slot k: for a Var, or a Bind over a Wildcard. It stands in the next record.
fn is_sought(src: &[u8], k: usize) -> bool
    requires { k < slots src.now }
{
    let kind = rec_at(src, k).kind;
    kind == Kind::PatternVar as u8
        || kind == Kind::PatternBind as u8
            && rec_there(src, k + 2).is_some_and(|r| r.kind == Kind::PatternWildcard as u8)
}

// Marks the lengths that are sought for the records from slot `from` up to `upto`.
pub fn mark_sought(text: &[u8], src: &[u8], from: usize, upto: usize, marks: &mut [u8])
    requires { upto ≤ slots src.now }
    ensures { length marks.new ≡ length marks.old }
{
    for k in from..upto {
        if is_sought(src, k) {
            if let Some(name) = rec_there(src, k + 1) {
                mark(text, marks, name.word1);
            }
        }
    }
}

// Whether an order of the names pays: there are many, or a long one among them.
pub fn pays(names: &Names) -> bool
    ensures { IsTrue result → 0 < names.now.n }
{
    128 <= names.n || (0..names.n).any(|j| 64 < names.range_at(j) % 4294967296)
}
