// A table of the ends of trees, filled once for a source, so that a tree is passed in one step.
ghost use Rattle.std.specs.Prelude.{◌≡◌, ◌≤◌, ◌<◌, length, get_or};
ghost use Rattle.records.specs.Slots.{slots, recs};
ghost use Rattle.judging.specs.Judging.{Sound};
ghost use Rattle.opening.specs.Ends.{EndsFrom, Hop, Childed, Child, behind};

use records::{rec_at, slots};

// Records of trees, and where the tree of each of them ends.
#[derive(Clone, Copy)]
pub struct Forest<'a> {
    pub records: &'a [u8],
    pub ends: &'a [u32],
}

impl Forest<'_> {
    // Where the tree of the record k ends.
    pub fn end_at(&self, k: usize) -> usize
        requires { k < length self.now.ends.now }
        ensures { result ≡ get_or self.now.ends.now k 0 }
    {
        self.ends[k] as usize
    }

    // The index after the c trees from the index `at` on, where `from` is the index after `last` of them.
    fn hop_from(&self, at: usize, from: usize, last: usize, c: usize) -> usize
        requires hop { Hop self.now.records.now self.now.ends.now at from last c }
        requires onward { last ≤ c }
        ensures { result ≡ behind self.now.records.now at c }
    {
        let mut a = from;
        for _ in last..c {
            a = self.end_at(a);
        }
        a
    }

    // The index after the c trees from the index `at` on.
    pub fn hop(&self, at: usize, c: usize) -> usize
        requires { Hop self.now.records.now self.now.ends.now at at 0 c }
        ensures { result ≡ behind self.now.records.now at c }
    {
        self.hop_from(at, at, 0, c)
    }

    // The index of the child c of the record k, from the index after `last` children on if that is not too far: children taken in their
    // order are passed once each.
    pub fn child_at(&self, k: usize, from: usize, last: usize, c: usize) -> usize
        requires { Childed self.now.records.now self.now.ends.now k from last c }
        ensures { Child self.now.records.now k c result }
    {
        if last <= c {
            return self.hop_from(k + 1, from, last, c);
        }
        self.hop(k + 1, c)
    }
}

// Fills the table, from the last record back: each tree ends where its last child does.
pub fn fill_ends(src: &[u8], ends: &mut [u32])
    requires sound { Sound src.now }
    requires long_enough { slots src.now ≤ length ends.old }
    ensures { EndsFrom (recs src.now) ends.new 0 }
{
    for i in (0..slots(src)).rev() {
        let r = rec_at(src, i);
        let source = Forest { records: src, ends };
        let e = source.hop(i + 1, r.count as usize);
        ends[i] = e as u32;
    }
}
