// Passing trees, and the first record of a kind: one pass each.
ghost use Rattle.std.specs.Prelude.{◌≡◌, ◌+◌, ◌≤◌, ◌<◌, unwrap_or, IfSome};
ghost use Rattle.records.specs.Slots.{slots, recs};
ghost use Rattle.forms.specs.Lists.{left, skip, first_macro_arg, FirstToPass};

use records::{rec_at, slots};
use trees::{Kind, Rec};

// The index after the n trees that start at the index `at`.
#[tactic(auto, using(crate::proofs::SkipLaws::skip_done, crate::proofs::SkipLaws::skip_again, crate::proofs::SkipLaws::skip_ended))]
pub fn skip(list: &[u8], at: usize, n: usize) -> usize
    requires few { slots list.now ≤ 65536 }
    requires few_trees { n ≤ 65536 }
    ensures { result ≡ at + skip n (left list.now at) }
{
    let end = slots(list);
    let mut trees = n;
    for i in at..end {
        if trees == 0 {
            return i;
        }
        trees = trees - 1 + rec_at(list, i).count as usize;
    }
    at.max(end)
}

// The index of the first record that passes a test.
pub fn first_where<F: Fn(Rec) -> bool>(list: &[u8], test: F) -> Option<usize>
    requires { F.IsAlwaysCallable test }
    ensures { FirstToPass (F.post test) list.now result }
{
    for i in 0..slots(list) {
        if test(rec_at(list, i)) {
            return Some(i);
        }
    }
    None
}

// The index of the first MacroArg.
pub fn first_macro_arg(list: &[u8]) -> Option<usize>
    ensures inside { IfSome result (λ i. i < slots list.now) }
    ensures first { unwrap_or result (slots list.now) ≡ first_macro_arg (recs list.now) }
{
    first_where(list, |r| r.kind == Kind::PatternMacroArg as u8)
}
