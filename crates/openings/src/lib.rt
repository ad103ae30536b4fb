// Opening for lent lists: the checks 7, 1 and 3, the work, and what the store and the output then hold.
#![tactic(auto)]

ghost use Rattle.std.specs.Prelude.{◌≡◌, ◌≤◌, length};
ghost use Rattle.trees.specs.Tree.{trees_of};
ghost use Rattle.records.specs.Slots.{slots, recs};
ghost use Rattle.records.specs.Grounds.{number};
ghost use Rattle.grounds.specs.Stages.{refusal};
ghost use Rattle.grounds.specs.Opening.{tree_of, counts, Fits, refuse, opening};
ghost use Rattle.opening.specs.Answers.{numbered, outputs, space_in, Countable};
ghost use Rattle.opening.specs.Lent.{held, SameLent};
ghost use Rattle.templating.specs.Calls.{refusal as refusal_number};
ghost use Rattle.openings.specs.Calls.{check, opening_of, Left, Finished};

use forms::judge::{definitions, one_pattern};
use grounds::Counts;
use judging::Flaw;
use judging::lent::{Definitions, Pattern};
use opening::lent::Outputs;
use opening::whole::open_into;
use records::{Ground, accepted, refused_on, slots};
use templating::sizes;
use words::{clear, clear_from};

// A refusal, and outputs of zeros.
fn refuse(outputs: &mut Outputs, reason: Ground, place: u32) -> u64
    ensures left { Left (refuse (refusal (number reason) place)) (held outputs.old) (held outputs.new) result }
    ensures same { SameLent outputs.old outputs.new }
{
    clear(outputs.store);
    clear(outputs.out);
    refused_on(reason, place)
}

// Of each output as many records as it got are kept.
fn keep(outputs: &mut Outputs, n: Counts) -> u64
    requires { Fits (counts 65536 65536) n }
    ensures finished { Finished (Ok n) (held outputs.old) (held outputs.new) result }
    ensures same { SameLent outputs.old outputs.new }
{
    let k = n.store;
    let m = n.output;
    clear_from(outputs.store, k * 24);
    clear_from(outputs.out, m * 24);
    accepted(m as u64)
}

// The end of a call: what it leaves in the outputs, and what it returns.
fn finish(outputs: &mut Outputs, a: Result<Counts, Flaw>) -> u64
    requires { Countable a }
    ensures finished { Finished (numbered a) (held outputs.old) (held outputs.new) result }
    ensures same { SameLent outputs.old outputs.new }
{
    match a {
        Ok(n) => keep(outputs, n),
        Err(flaw) => refuse(outputs, flaw.reason, flaw.place as u32),
    }
}

// Definitions and a pattern that are of their kind, with a lent table for the ends of trees.
fn open_by(
    text: &[u8],
    defs: &Definitions,
    pattern: &Pattern,
    ends: &mut [u32],
    outputs: &mut Outputs,
) -> u64
    requires defs_fit { slots defs.now.records.now ≤ length ends.old }
    requires pattern_fits { slots pattern.now.records.now ≤ length ends.old }
    ensures left { Left (opening text.now (trees_of (recs defs.now.records.now)) (tree_of (recs pattern.now.records.now)) (space_in (held outputs.old))) (held outputs.old) (held outputs.new) result }
    ensures same { SameLent outputs.old outputs.new }
{
    let a = open_into(text, defs, pattern, ends, outputs);
    finish(outputs, a)
}

// The same, with a table for lists of at most N records, which no other call makes room for.
#[inline(never)]
fn open_upto<const N: usize>(
    text: &[u8],
    defs: &Definitions,
    pattern: &Pattern,
    outputs: &mut Outputs,
) -> u64
    requires defs_fit { slots defs.now.records.now ≤ N }
    requires pattern_fits { slots pattern.now.records.now ≤ N }
    requires on_the_stack { N ≤ 65536 }
    ensures left { Left (opening text.now (trees_of (recs defs.now.records.now)) (tree_of (recs pattern.now.records.now)) (space_in (held outputs.old))) (held outputs.old) (held outputs.new) result }
    ensures same { SameLent outputs.old outputs.new }
{
    let mut ends = [0u32; N];
    open_by(text, defs, pattern, &mut ends, outputs)
}

// Definitions and a pattern that are of their kind. A small table is filled with zeros in less time than a large one.
fn open_judged(text: &[u8], defs: &Definitions, pattern: &Pattern, outputs: &mut Outputs) -> u64
    ensures left { Left (opening text.now (trees_of (recs defs.now.records.now)) (tree_of (recs pattern.now.records.now)) (space_in (held outputs.old))) (held outputs.old) (held outputs.new) result }
    ensures same { SameLent outputs.old outputs.new }
{
    let records = slots(defs.records).max(slots(pattern.records));
    if records <= 256 {
        return open_upto::<256>(text, defs, pattern, outputs);
    }
    if records <= 4096 {
        return open_upto::<4096>(text, defs, pattern, outputs);
    }
    open_upto::<65536>(text, defs, pattern, outputs)
}

// Whether any lent lists are definitions and one pattern: 7, 1 or 3, if they are not. The definitions are judged first, and the pattern
// only where they are definitions.
fn check(text: &[u8], defs: &[u8], pattern: &[u8]) -> Result<(), Ground>
    ensures { refusal_number result ≡ check text.now defs.now pattern.now }
{
    sizes(text.len(), defs.len(), pattern.len())?;
    if !definitions(defs, text.len()) || !one_pattern(pattern, text.len()) {
        return Err(Ground::MalformedList);
    }
    Ok(())
}

// Any lent lists, any text, any store, any output.
pub fn open(text: &[u8], defs: &[u8], pattern: &[u8], store: &mut [u8], out: &mut [u8]) -> u64
    ensures { Left (opening_of text.now defs.now pattern.now (outputs store.old out.old)) (outputs store.old out.old) (outputs store.new out.new) result }
{
    let mut outputs = Outputs { store, out };
    if let Err(reason) = check(text, defs, pattern) {
        return refuse(&mut outputs, reason, 0);
    }
    let defs = Definitions { records: defs };
    let pattern = Pattern { records: pattern };
    open_judged(text, &defs, &pattern, &mut outputs)
}
