// The first pattern or expression at depth 65, in one pass, with the number of trees that each open level still expects.
ghost use Rattle.std.specs.Prelude.{◌≡◌, true, false, ◌∷◌, ◌+◌, ◌-◌, ◌≤◌, ◌<◌, length, eqb, unwrap_or, IfSome};
ghost use Rattle.records.specs.Slots.{slots, recs};
ghost use Rattle.forms.specs.Tests.{◌and◌};
ghost use Rattle.forms.specs.Depth.{level_of, settle, read_one, expect, enter, Small, first_deep_in};
ghost use Rattle.forms.specs.Stack.{pending};

use crate::table::row_of;
use records::{rec_at, slots};
use trees::Rec;

// So many levels may be open.
const LEVELS: usize = 64;

// Whether a record is a pattern or an expression.
fn is_level(r: Rec) -> bool
    ensures { result ≡ level_of r.kind r.flags }
{
    row_of(r.kind, r.flags).is_some_and(|w| w.sort.is_level())
}

// How many trees each open level still expects, the outermost first, and how many levels are open.
// Kept: counts with their number beside them, since there is no heap.
#[derive(Drop)]
struct Levels {
    counts: [u64; LEVELS],
    depth: usize,
    ghost open: { depth ≤ 64 },
}

impl Levels {
    // How many levels are open once those that expect nothing more are left.
    fn settled(&self) -> usize
        ensures left { pending self.now.counts result ≡ settle (pending self.now.counts self.now.depth) }
        ensures no_deeper { result ≤ self.now.depth }
    {
        for d in (0..self.depth).rev() {
            if self.counts[d] != 0 {
                return d + 1;
            }
        }
        0
    }

    // Levels that expect nothing more are left.
    fn settle(&mut self)
        ensures { pending self.new.counts self.new.depth ≡ settle (pending self.old.counts self.old.depth) }
    {
        self.depth = self.settled();
    }

    // Whether a pattern or expression inside these levels is at depth 65.
    #[tactic(auto, using(crate::proofs::DepthTurns::deep_level, crate::proofs::DepthTurns::deep_plain))]
    fn is_too_deep(&self, level: bool) -> bool
        ensures { result ≡ (level and eqb self.now.depth 64) }
    {
        level && self.depth == LEVELS
    }

    // The innermost level has read one tree, and expects c more.
    // Kept: that the counts are small is a premise, since a count is larger after `stay` than before: that it stays small is known of a list alone.
    fn stay(&mut self, c: u64)
        requires small { Small 4294967296 (pending self.old.counts self.old.depth) }
        requires few { c < 65536 }
        ensures read { pending self.new.counts self.new.depth ≡ expect c (read_one (pending self.old.counts self.old.depth)) }
        ensures same_depth { self.new.depth ≡ self.old.depth }
    {
        if self.depth != 0 {
            let d = self.depth - 1;
            self.counts[d] = self.counts[d].saturating_sub(1) + c;
        }
    }

    // A new level is entered with c trees expected, after the innermost one has read one tree.
    fn enter(&mut self, c: u64)
        requires room { self.old.depth < 64 }
        requires small { Small 4294967296 (pending self.old.counts self.old.depth) }
        ensures { pending self.new.counts self.new.depth ≡ c ∷ read_one (pending self.old.counts self.old.depth) }
    {
        self.stay(0);
        self.counts[self.depth] = c;
        self.depth += 1;
    }

    // A record with c children is read inside these levels.
    fn read(&mut self, level: bool, c: u64)
        requires not_too_deep { (level and eqb self.old.depth 64) ≡ false }
        requires small { Small 4294967296 (pending self.old.counts self.old.depth) }
        requires few { c < 65536 }
        ensures { pending self.new.counts self.new.depth ≡ enter level c (read_one (pending self.old.counts self.old.depth)) }
    {
        if level {
            self.enter(c);
        } else {
            self.stay(c);
        }
    }
}

// The index of the first pattern or expression at depth 65.
pub fn first_deep(list: &[u8]) -> Option<usize>
    requires { slots list.now ≤ 65536 }
    ensures inside { IfSome result (λ i. i < slots list.now) }
    ensures first { unwrap_or result (slots list.now) ≡ first_deep_in (recs list.now) }
{
    let mut levels = Levels {
        counts: [0; LEVELS],
        depth: 0,
    };
    for i in 0..slots(list) {
        let r = rec_at(list, i);
        let level = is_level(r);
        levels.settle();
        if levels.is_too_deep(level) {
            return Some(i);
        }
        levels.read(level, r.count as u64);
    }
    None
}
