// The stages of an extractor, one function each; and the loop over the extractors of a list.
ghost use Rattle.grounds.specs.Order.{named_again};
ghost use Rattle.judging.specs.Table.{Table};
ghost use Rattle.judging.specs.Judging.{ExtractorAt, StageJudged, ExtractorJudged, ListJudged};

use crate::Flaw;
use crate::calls::Callable;
use crate::lent::Definitions;
use crate::table::Extractors;
use forms::scans::skip;
use records::{Ground, rec_at, slots};
use trees::Kind;

impl Callable<'_> {
    // 30: name of an earlier extractor.
    fn judge_again(&self, defs: &[u8], i: usize, c: usize) -> Result<(), Flaw>
        requires { ExtractorAt defs.now i c }
        ensures { StageJudged (named_again self.now.known.text.now) self.now.known.text.now self.now.known.rows.now self.now.earlier defs.now i result }
    {
        let name = rec_at(defs, i + 1);
        let Some(x) = self.known.look_up(name.word1) else {
            return Ok(());
        };
        if x < self.earlier {
            return Err(Flaw {
                reason: Ground::ExtractorName,
                place: i,
            });
        }
        Ok(())
    }

    // The Extractor at the index i, with c children: its stages in their order; where it ends.
    fn judge_extractor(&self, defs: &[u8], i: usize, c: usize) -> Result<usize, Flaw>
        requires { ExtractorAt defs.now i c }
        ensures { ExtractorJudged self.now.known.text.now self.now.known.rows.now self.now.earlier defs.now i result }
    {
        self.judge_again(defs, i, c)?;
        self.judge_calls(defs, i + 1, c)
    }
}

// The extractors of a definition list, in list order.
pub fn judge_definitions(known: &Extractors, defs: &Definitions) -> Result<(), Flaw>
    requires all_known { Table known.now.text.now defs.now.records.now known.now.rows.now }
    ensures { ListJudged known.now.text.now defs.now.records.now result }
{
    let end = slots(defs.records);
    let mut earlier = 0;
    let mut i = 0;
    // Kept: where a tree ends is known only once it is judged, or skip has read it, so that no range says the next index.
    while i < end {
        let r = rec_at(defs.records, i);
        if r.kind != Kind::Extractor as u8 {
            i = skip(defs.records, i, 1);
            continue;
        }
        let callable = Callable {
            known: *known,
            earlier,
        };
        i = callable.judge_extractor(defs.records, i, r.count as usize)?;
        earlier += 1;
    }
    Ok(())
}
