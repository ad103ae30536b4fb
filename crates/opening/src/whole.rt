// The whole of opening, after the checks of the lists.
ghost use Rattle.std.specs.Prelude.{◌≡◌, ◌≤◌, ◌<◌, length};
ghost use Rattle.records.specs.Slots.{slots};
ghost use Rattle.records.specs.declared.Ground.TheVariants.{NoSpace};
ghost use Rattle.judging.specs.Judging.{flaw};
ghost use Rattle.opening.specs.Store.{Stored};
ghost use Rattle.opening.specs.Answers.{space_of, space_in};
ghost use Rattle.opening.specs.Lent.{held, SameLent};
ghost use Rattle.opening.specs.Work.{PatternOpened, PatternAnswered, TemplatesAsked, PatternAsked, LastAsked, WorkAsked, StoreDone, Accepting, Answers};

use crate::Side;
use crate::ends::{Forest, fill_ends};
use crate::lent::{Outputs, Request};
use crate::made::Parameters;
use crate::store::fill_store;
use crate::walk::Opening;
use grounds::Counts;
use judging::Flaw;
use judging::lent::{Definitions, Pattern};
use judging::table::{EMPTY, Extractors};
use judging::whole::{judge_once, judge_pattern};
use records::{Ground, slots};

// The space of an output: its whole records, but at most 65,536.
#[tactic(auto, unfolding(crate::specs::Answers::space_of))]
fn space_in(bytes: &[u8]) -> usize
    ensures { result ≡ space_of bytes.now }
{
    slots(bytes).min(65536)
}

impl Outputs<'_> {
    // The space of both.
    #[tactic(auto, unfolding(crate::specs::Answers::space_in))]
    fn space(&self) -> Counts
        ensures { result ≡ space_in (held self.now) }
    {
        Counts {
            store: space_in(self.store),
            output: space_in(self.out),
        }
    }
}

// 6: no space in the store, at 0, or in the output, at 1.
fn no_space(place: usize) -> Flaw
    ensures { result ≡ flaw NoSpace place }
{
    Flaw {
        reason: Ground::NoSpace,
        place,
    }
}

// Fills the store with the opened templates: how many records it then has, if there is space.
fn open_templates(
    request: &Request,
    ends: &mut [u32],
    starts: &mut [usize],
    outputs: &mut Outputs,
    space: usize,
) -> Option<usize>
    requires { TemplatesAsked request.now.known.text.now request.now.known.rows.now request.now.defs.now ends.old starts.old outputs.old.store.now space }
    ensures stored { Stored space request.now.known.text.now request.now.known.rows.now request.now.defs.now outputs.old.store.now outputs.old.out.now starts.new outputs.new.store.now outputs.new.out.now result }
    ensures same { SameLent outputs.old outputs.new }
{
    fill_ends(request.defs, ends);
    let source = Forest {
        records: request.defs,
        ends,
    };
    fill_store(&request.known, &source, starts, outputs, space)
}

// The same, for the call of this pattern with this space.
fn open_store(
    request: &Request,
    ends: &mut [u32],
    starts: &mut [usize],
    outputs: &mut Outputs,
    space: Counts,
) -> Option<usize>
    requires asked { WorkAsked request.now.known.text.now request.now.known.rows.now request.now.defs.now request.now.pattern.now ends.old (held outputs.old) space }
    requires starts_long { 256 < length starts.old }
    ensures done { StoreDone request.now.known.text.now request.now.known.rows.now request.now.defs.now request.now.pattern.now (held outputs.old) space ends.new starts.new outputs.new.store.now outputs.new.out.now result }
    ensures same { SameLent outputs.old outputs.new }
{
    open_templates(request, ends, starts, outputs, space.store)
}

// Writes the opened pattern, from the slot `start` on: how many records the output then has, if there is space.
fn open_pattern(
    request: &Request,
    ends: &mut [u32],
    starts: &[usize],
    outputs: &mut Outputs,
    start: usize,
    space: usize,
) -> Option<usize>
    requires { PatternAsked request.now.known.text.now request.now.known.rows.now request.now.pattern.now ends.old starts.now outputs.old.store.now outputs.old.out.now start space }
    ensures opened { PatternOpened start space request.now.known.text.now request.now.known.rows.now starts.now request.now.pattern.now outputs.old.store.now outputs.old.out.now outputs.new.store.now outputs.new.out.now result }
    ensures same { SameLent outputs.old outputs.new }
{
    fill_ends(request.pattern, ends);
    let opening = Opening {
        known: request.known,
        starts,
        source: Forest {
            records: request.pattern,
            ends,
        },
        params: Parameters { first: 0, count: 0 },
        to: Side::Output,
        space,
    };
    opening.open_one(outputs.store, outputs.out, 0, start)
}

// The opened pattern at the beginning of the output, after y records in the store: how many each got, or 6.
fn open_last(
    request: &Request,
    ends: &mut [u32],
    starts: &[usize],
    outputs: &mut Outputs,
    y: usize,
    space: Counts,
) -> Result<Counts, Flaw>
    requires { LastAsked request.now.known.text.now request.now.known.rows.now request.now.pattern.now ends.old starts.now outputs.old.store.now outputs.old.out.now y space }
    ensures answered { PatternAnswered y space request.now.known.text.now request.now.known.rows.now starts.now request.now.pattern.now outputs.old.store.now outputs.old.out.now outputs.new.store.now outputs.new.out.now result }
    ensures same { SameLent outputs.old outputs.new }
{
    let z = open_pattern(request, ends, starts, outputs, 0, space.output).ok_or(no_space(1))?;
    Ok(Counts {
        store: y,
        output: z,
    })
}

// Where no ground before space holds: the store, then the output.
fn open_fine(
    request: &Request,
    ends: &mut [u32],
    outputs: &mut Outputs,
    space: Counts,
) -> Result<Counts, Flaw>
    requires { WorkAsked request.now.known.text.now request.now.known.rows.now request.now.defs.now request.now.pattern.now ends.old (held outputs.old) space }
    ensures answered { Answers request.now.known.text.now request.now.defs.now request.now.pattern.now (held outputs.old) (held outputs.new) result }
    ensures same { SameLent outputs.old outputs.new }
{
    let mut starts = [0usize; 257];
    let y = open_store(request, ends, &mut starts, outputs, space).ok_or(no_space(0))?;
    open_last(request, ends, &starts, outputs, y, space)
}

// The same, with the space of the outputs.
fn open_judged(request: &Request, ends: &mut [u32], outputs: &mut Outputs) -> Result<Counts, Flaw>
    requires accepting { Accepting request.now.known.text.now request.now.known.rows.now request.now.defs.now request.now.pattern.now }
    requires defs_fit { slots request.now.defs.now ≤ length ends.old }
    requires pattern_fits { slots request.now.pattern.now ≤ length ends.old }
    ensures answered { Answers request.now.known.text.now request.now.defs.now request.now.pattern.now (held outputs.old) (held outputs.new) result }
    ensures same { SameLent outputs.old outputs.new }
{
    let space = outputs.space();
    open_fine(request, ends, outputs, space)
}

// Opens the pattern by the extractors of the definition list. The table of ends is lent.
pub fn open_into<'a>(
    text: &'a [u8],
    defs: &Definitions<'a>,
    pattern: &Pattern<'a>,
    ends: &mut [u32],
    outputs: &mut Outputs,
) -> Result<Counts, Flaw>
    requires defs_fit { slots defs.now.records.now ≤ length ends.old }
    requires pattern_fits { slots pattern.now.records.now ≤ length ends.old }
    ensures answered { Answers text.now defs.now.records.now pattern.now.records.now (held outputs.old) (held outputs.new) result }
    ensures same { SameLent outputs.old outputs.new }
{
    let mut table = EMPTY;
    let f = judge_once(text, defs, &mut table);
    let n = judge_pattern(text, defs, &table, f, pattern)?;
    let request = Request {
        known: Extractors::first_of(text, &table, n),
        defs: defs.records,
        pattern: pattern.records,
    };
    open_judged(&request, ends, outputs)
}
