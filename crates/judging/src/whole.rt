// The whole order: what is found in the definitions, once, and in a pattern after them.
ghost use Rattle.std.specs.Prelude.{◌≡◌, ◌+◌, ◌≤◌, ◌<◌, length, IfSome};
ghost use Rattle.trees.specs.Tree.{trees_of};
ghost use Rattle.records.specs.Slots.{slots, recs};
ghost use Rattle.grounds.specs.Stages.{found};
ghost use Rattle.grounds.specs.Order.{macro_args, too_deeps};
ghost use Rattle.judging.specs.Judging.{Sound, judged_at, Answers, Low, moved};
ghost use Rattle.judging.specs.Whole.{OthersJudged, FoundIn, both, Grounded};

use crate::Flaw;
use crate::calls::Callable;
use crate::extractors::judge_definitions;
use crate::lent::{Definitions, Pattern};
use crate::table::{Entry, Extractors, MOST, make_table};
use forms::depth::first_deep;
use forms::scans::first_macro_arg;
use records::{Ground, slots};

// What is found in the definitions, whatever the pattern: 4; 8; and 33 or the first of the extractors' stages, or their number.
#[derive(Clone, Copy)]
pub struct Findings {
    pub args: Result<(), Flaw>,
    pub deep: Result<(), Flaw>,
    pub others: Result<usize, Flaw>,
}

// What is wrong at the index found, where there is one, in a list whose first record has the place d.
fn judge_index(found: Option<usize>, reason: Ground, d: usize) -> Result<(), Flaw>
    requires few { IfSome found (λ a. a < 65536) }
    requires place_small { d ≤ 65536 }
    ensures { result ≡ judged_at found reason d }
{
    found.map_or(Ok(()), |a| {
        Err(Flaw {
            reason,
            place: d + a,
        })
    })
}

// 4: the first MacroArg of a list whose first record has the place d.
fn judge_args(src: &[u8], d: usize) -> Result<(), Flaw>
    requires sound { Sound src.now }
    requires place_small { d ≤ 65536 }
    ensures { Answers (found (macro_args (trees_of (recs src.now)) d)) (d + slots src.now) result }
{
    judge_index(first_macro_arg(src), Ground::MacroArg, d)
}

// 8: the first pattern or expression at depth 65.
fn judge_deep(src: &[u8], d: usize) -> Result<(), Flaw>
    requires sound { Sound src.now }
    requires place_small { d ≤ 65536 }
    ensures { Answers (found (too_deeps (trees_of (recs src.now)) d)) (d + slots src.now) result }
{
    judge_index(first_deep(src), Ground::TooDeep, d)
}

// 33, then the extractors: their number, which the table then holds, or the refusal.
fn judge_others(text: &[u8], defs: &Definitions, table: &mut [Entry]) -> Result<usize, Flaw>
    requires { MOST ≤ length table.old }
    ensures { OthersJudged text.now defs.now.records.now table.new result }
{
    let n = make_table(defs, table)?;
    judge_definitions(&Extractors::first_of(text, table, n), defs)?;
    Ok(n)
}

// The definitions, once.
pub fn judge_once(text: &[u8], defs: &Definitions, table: &mut [Entry]) -> Findings
    requires { MOST ≤ length table.old }
    ensures { FoundIn text.now defs.now.records.now table.new result }
{
    let args = judge_args(defs.records, 0);
    let deep = judge_deep(defs.records, 0);
    let others = judge_others(text, defs, table);
    Findings { args, deep, others }
}

// 4 of both lists, then 8 of both.
fn judge_both(
    defs: &Definitions,
    pattern: &Pattern,
    args: Result<(), Flaw>,
    deep: Result<(), Flaw>,
) -> Result<(), Flaw>
    requires args_answer { Answers (found (macro_args (trees_of (recs defs.now.records.now)) 0)) (slots defs.now.records.now) args }
    requires deep_answer { Answers (found (too_deeps (trees_of (recs defs.now.records.now)) 0)) (slots defs.now.records.now) deep }
    ensures { Answers (both defs.now.records.now pattern.now.records.now) (slots defs.now.records.now + slots pattern.now.records.now) result }
{
    let before = slots(defs.records);
    args?;
    judge_args(pattern.records, before)?;
    deep?;
    judge_deep(pattern.records, before)
}

// An answer whose place goes on after d records, with n for a fine one.
fn after_list(j: Result<usize, Flaw>, n: usize, d: usize) -> Result<usize, Flaw>
    requires place_small { d ≤ 65536 }
    requires low { Low 65536 j }
    ensures { result ≡ moved j n d }
{
    j.map_err(|flaw| Flaw {
        reason: flaw.reason,
        place: d + flaw.place,
    })
    .map(|_| n)
}

// A pattern after the definitions: the number of extractors, or the refusal.
pub fn judge_pattern(
    text: &[u8],
    defs: &Definitions,
    table: &[Entry],
    f: Findings,
    pattern: &Pattern,
) -> Result<usize, Flaw>
    requires found { FoundIn text.now defs.now.records.now table.now f }
    ensures { Grounded text.now defs.now.records.now pattern.now.records.now table.now result }
{
    judge_both(defs, pattern, f.args, f.deep)?;
    let n = f.others?;
    let callable = Callable {
        known: Extractors::first_of(text, table, n),
        earlier: n,
    };
    let calls = callable.judge_calls(pattern.records, 0, 1);
    after_list(calls, n, slots(defs.records))
}
