// The first of a row of names that is the one sought: one after another.
ghost use Rattle.std.specs.Prelude.{◌≡◌, ◌<◌};
ghost use Rattle.trees.specs.Names.{spelled};
ghost use Rattle.names.specs.Order.{range_at, First};

use crate::compare::same_name;
use crate::row::Names;
use records::rec_at;

impl<'a> Names<'a> {
    // The range of the name j.
    #[tactic(auto, unfolding(crate::specs::Order::range_at))]
    pub fn range_at(&self, j: usize) -> u64
        requires { j < self.now.n }
        ensures { result ≡ range_at self.now j }
    {
        rec_at(self.src, self.from + j).word1
    }

    // The number of the first name that is the one at the range w.
    #[tactic(auto, using(crate::proofs::Laws::seek_turn, crate::proofs::Laws::seek_here))]
    pub fn seek(&self, w: u64) -> Option<usize>
        ensures { First self.now (spelled self.now.text.now w) result }
    {
        for k in 0..self.n {
            if same_name(self.text, w, self.range_at(k)) {
                return Some(k);
            }
        }
        None
    }
}
