// The scan for a MacroArg that has no pattern.
ghost use Rattle.std.specs.Prelude.{◌≡◌, ◌<◌, unwrap_or, IfSome};
ghost use Rattle.records.specs.Slots.{slots, recs};
ghost use Rattle.forms.specs.Lists.{first_of};
ghost use Rattle.templates.specs.Answers.{lacks_pattern};

use forms::scans::first_where;
use trees::{Kind, Rec};

// Whether r is a MacroArg with none of n patterns at its index.
#[tactic(auto, using(crate::proofs::ScanLaws::lacks_arg, crate::proofs::ScanLaws::lacks_other))]
fn lacks_pattern(r: Rec, n: usize) -> bool
    ensures { result ≡ lacks_pattern n r }
{
    r.kind == Kind::PatternMacroArg as u8 && n as u64 <= r.word1
}

// The slot of the first MacroArg with none of n patterns at its index.
pub fn first_lacking(list: &[u8], n: usize) -> Option<usize>
    ensures inside { IfSome result (λ i. i < slots list.now) }
    ensures first { unwrap_or result (slots list.now) ≡ first_of (lacks_pattern n) (recs list.now) }
{
    first_where(list, |r| lacks_pattern(r, n))
}
