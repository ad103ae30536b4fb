// 32, 31: the calls in trees.
ghost use Rattle.std.specs.Prelude.{◌≡◌, ◌≤◌, ◌<◌, length, drop};
ghost use Rattle.trees.specs.Tree.{count, trees_of};
ghost use Rattle.records.specs.Slots.{slots, recs};
ghost use Rattle.records.specs.Grounds.{code};
ghost use Rattle.judging.specs.Judging.{Sound, by_number, MarkedAt, Scanned, its_flaw};

use crate::Flaw;
use crate::table::Extractors;
use records::{Ground, rec_at, slots};
use trees::Kind;

// The extractors of a table, the first of which are earlier than what is judged: these alone may be called there.
#[derive(Clone, Copy)]
pub struct Callable<'a> {
    pub known: Extractors<'a>,
    pub earlier: usize,
    pub ghost some_earlier: { earlier ≤ length known.rows.now },
}

impl Callable<'_> {
    // A call by the row that its name is looked up to: 31 or 32, if it is wrong.
    fn judge_number(&self, found: Option<usize>, count: u16) -> Result<(), Ground>
        ensures { code result ≡ by_number self.now.known.rows.now self.now.earlier found count }
    {
        let Some(x) = found else {
            return Ok(());
        };
        if x >= self.earlier {
            return Err(Ground::CallOrder);
        }
        if self.known.rows[x].arity == (count as usize).saturating_sub(1) {
            return Ok(());
        }
        Err(Ground::ArgumentCount)
    }

    // The record at the index k as a call: 31 or 32, if it is wrong.
    // Kept: that the list is sound is a premise in all that read the definitions and the pattern alike; each of these two has it as a fact.
    fn judge_call(&self, src: &[u8], k: usize) -> Result<(), Ground>
        requires inside { k < slots src.now }
        requires sound { Sound src.now }
        ensures { MarkedAt (its_flaw self.now.known.text.now self.now.known.rows.now self.now.earlier) src.now k (code result) }
    {
        let r = rec_at(src, k);
        if r.kind != Kind::PatternTerm as u8 {
            return Ok(());
        }
        let name = rec_at(src, k + 1);
        self.judge_number(self.known.look_up(name.word1), r.count)
    }

    // The calls in the trees from the index `at` on; where they end.
    pub fn judge_calls(&self, src: &[u8], at: usize, trees: usize) -> Result<usize, Flaw>
        requires sound { Sound src.now }
        requires trees_there { trees ≤ count (trees_of (drop at (recs src.now))) }
        ensures { Scanned (its_flaw self.now.known.text.now self.now.known.rows.now self.now.earlier) src.now at trees result }
    {
        let end = slots(src);
        let mut todo = trees;
        for k in at..end {
            if todo == 0 {
                return Ok(k);
            }
            if let Err(reason) = self.judge_call(src, k) {
                return Err(Flaw { reason, place: k });
            }
            todo = todo - 1 + rec_at(src, k).count as usize;
        }
        Ok(at.max(end))
    }
}
