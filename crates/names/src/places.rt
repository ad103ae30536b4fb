// Numbers of names, in an order that is searched by halves. Nothing is known of the order.
ghost use Rattle.std.specs.Prelude.{◌≡◌, ◌<◌, ◌≤◌, length, IsTrue};
ghost use Rattle.trees.specs.Names.{spelled};
ghost use Rattle.names.specs.Compare.{before};
ghost use Rattle.names.specs.Order.{entry, ordered, place, led, marked, Leads, Checked};

use crate::compare::{comes_before, same_name};
use crate::row::Names;
use tokens::names::spelling;

#[derive(Clone, Copy)]
pub struct Places<'a> {
    pub names: Names<'a>,
    pub numbers: &'a [u32],
    pub ghost some: { 0 < length numbers.now },
    pub ghost few: { length numbers.now ≤ names.n },
}

// Whether names of the length of that at the range w are in the order.
#[tactic(auto, using(crate::proofs::Laws::marked_all, crate::proofs::Laws::marked_at))]
pub(crate) fn is_marked(text: &[u8], marks: &[u8], w: u64) -> bool
    ensures { result ≡ marked marks.now (length (spelled text.now w)) }
{
    let len = spelling(text, w).len();
    marks.is_empty() || marks.get(len) == Some(&1)
}

impl<'a> Places<'a> {
    // The number at place i.
    #[tactic(auto, using(crate::proofs::Laws::entry_in, crate::proofs::Laws::entry_out))]
    pub(crate) fn entry(&self, i: usize) -> usize
        requires { i < length self.now.numbers.now }
        ensures number { result ≡ entry self.now.numbers.now self.now.names.n i }
        ensures of_a_name { result < self.now.names.n }
    {
        let k = self.numbers[i] as usize;
        if k < self.names.n { k } else { 0 }
    }

    // Whether the name at the range w comes before that at place i.
    #[tactic(auto, unfolding(crate::specs::Order::ordered))]
    fn stands_before(&self, i: usize, w: u64) -> bool
        requires { i < length self.now.numbers.now }
        ensures { result ≡ before (spelled self.now.names.text.now w) (ordered self.now.names self.now.numbers.now i) }
    {
        comes_before(self.names.text, w, self.names.range_at(self.entry(i)))
    }

    // The place of a name.
    // Kept: std's partition_point says where it ends only of an order that is known, and what is found here must depend on the name alone.
    #[tactic(auto, using(crate::proofs::Laws::halving_start))]
    pub(crate) fn place(&self, w: u64) -> usize
        ensures by_halves { result ≡ place self.now.names self.now.numbers.now (spelled self.now.names.text.now w) }
        ensures in_order { result < length self.now.numbers.now }
    {
        let mut base = 0;
        let mut left = self.numbers.len();
        while 1 < left {
            let half = left / 2;
            if !self.stands_before(base + half, w) {
                base += half;
            }
            left -= half;
        }
        base
    }

    // The number to which a name leads.
    #[tactic(auto, unfolding(crate::specs::Order::led))]
    pub(crate) fn led(&self, w: u64) -> usize
        ensures by_place { result ≡ led self.now.names self.now.numbers.now (spelled self.now.names.text.now w) }
        ensures of_a_name { result < self.now.names.n }
    {
        self.entry(self.place(w))
    }

    // Whether the name j, if of a marked length, leads to an equal one that is not later.
    #[tactic(auto, using(crate::proofs::Laws::leads_unmarked, crate::proofs::Laws::leads_same))]
    fn leads(&self, marks: &[u8], j: usize) -> bool
        requires { j < self.now.names.n }
        ensures { IsTrue result → Leads self.now.names self.now.numbers.now marks.now j }
    {
        let names = &self.names;
        let w = names.range_at(j);
        if !is_marked(names.text, marks, w) {
            return true;
        }
        let k = self.led(w);
        if j < k {
            return false;
        }
        same_name(names.text, w, names.range_at(k))
    }

    // Whether each name of a marked length leads to the first of its kind.
    pub(crate) fn is_checked(&self, marks: &[u8]) -> bool
        ensures { IsTrue result → Checked self.now.names self.now.numbers.now marks.now self.now.names.n }
    {
        (0..self.names.n).all(|j| self.leads(marks, j))
    }
}
