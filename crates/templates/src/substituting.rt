// Pattern::subst_macro_args of ast.rs.
ghost use Rattle.std.specs.Prelude.{◌≡◌, ◌+◌, ◌≤◌, ◌<◌, length};
ghost use Rattle.records.specs.Slots.{slots, recs, rec_at};
ghost use Rattle.templates.specs.Answers.{SubstituteReady, Answered, substitute_answer, substituted_records, space};
ghost use Rattle.templates.specs.Writing.{Wrote};
ghost use Rattle.templates.specs.Scans.{Starts, start_of, pattern_records, filled_by, fill_from, ArgsBelow};

use crate::output::Output;
use crate::scans::first_lacking;
use crate::{Answer, Refused};
use forms::scans::skip;
use records::{rec_at, slots};
use trees::Kind;

// Patterns, and the slot where each of them starts.
#[derive(Clone, Copy)]
struct Patterns<'a> {
    records: &'a [u8],
    starts: &'a [u32],
    ghost found: { Starts records.now starts.now (length starts.now) },
    ghost few: { length starts.now ≤ 65536 },
}

// Fills the table of the starts of the patterns. How many there are.
fn find_starts(patterns: &[u8], starts: &mut [u32]) -> usize
    requires few { slots patterns.now ≤ 65536 }
    requires room { slots patterns.now ≤ length starts.old }
    ensures { Starts patterns.now starts.new result }
{
    let end = slots(patterns);
    let mut n = 0;
    let mut i = 0;
    // Kept: a step is of a whole tree, so that no range or chain of iterators gives the slots.
    while i < end {
        starts[n] = i as u32;
        n += 1;
        i = skip(patterns, i, 1);
    }
    n
}

impl<'a> Patterns<'a> {
    // Where the pattern k starts, or where the last one ends.
    #[tactic(auto, using(crate::proofs::FillLaws::start_in, crate::proofs::FillLaws::start_last))]
    fn start_of(&self, k: usize) -> usize
        ensures { result ≡ start_of self.now.starts.now (length self.now.starts.now) (slots self.now.records.now) k }
    {
        if k < self.starts.len() {
            return self.starts[k] as usize;
        }
        slots(self.records)
    }

    // Appends the pattern k.
    fn append(&self, k: usize, out: &mut Output) -> Result<(), Refused>
        requires given { k < length self.now.starts.now }
        ensures { Wrote out.old (pattern_records self.now.records.now k) out.new result }
    {
        let from = self.start_of(k);
        let upto = self.start_of(k + 1);
        out.append_slice(self.records, from, upto)
    }

    // Appends what the record at slot i of the template becomes: itself, or the pattern at its index.
    #[tactic(auto, using(crate::proofs::FillLaws::arg_below, crate::proofs::FillLaws::filled_arg, crate::proofs::FillLaws::filled_copy))]
    fn append_filled(&self, template: &[u8], i: usize, out: &mut Output) -> Result<(), Refused>
        requires args_below { ArgsBelow template.now (length self.now.starts.now) }
        requires there { i < slots template.now }
        ensures { Wrote out.old (filled_by self.now.records.now (rec_at template.now i)) out.new result }
    {
        let r = rec_at(template, i);
        if r.kind == Kind::PatternMacroArg as u8 {
            return self.append(r.word1 as usize, out);
        }
        out.append(r)
    }

    // Appends the template with the patterns in it.
    fn fill(&self, template: &[u8], out: &mut Output) -> Result<(), Refused>
        requires args_below { ArgsBelow template.now (length self.now.starts.now) }
        ensures { Wrote out.old (fill_from template.now 0 self.now.records.now) out.new result }
    {
        for i in 0..slots(template) {
            self.append_filled(template, i, out)?;
        }
        Ok(())
    }
}

// The template with the patterns in it, by a lent table for their starts.
// Kept: of a template and its patterns together this function and the next two ask `SubstituteReady`, and the last is public and must. A struct
// with that as a ghost field would take two lines of premise away, and add to specs/ the proofs that its lists of conditions have one proof at
// most.
fn substitute_by(template: &[u8], patterns: &[u8], starts: &mut [u32], out: &mut [u8]) -> Answer
    requires ready { SubstituteReady template.now patterns.now }
    requires room { slots patterns.now ≤ length starts.old }
    ensures { Answered (substitute_answer (recs template.now) (recs patterns.now) (space out.old)) (substituted_records (recs template.now) (recs patterns.now)) out.old out.new result }
{
    let m = find_starts(patterns, starts);
    if let Some(at) = first_lacking(template, m) {
        return Err(Refused::NoPattern { at: at as u32 });
    }
    let found = Patterns {
        records: patterns,
        starts: &starts[..m],
    };
    let mut output = Output::new(out);
    found.fill(template, &mut output)?;
    Ok(output.written as u32)
}

// The same with a table for N patterns.
fn substitute_with<const N: usize>(template: &[u8], patterns: &[u8], out: &mut [u8]) -> Answer
    requires ready { SubstituteReady template.now patterns.now }
    requires size { N ≤ 65536 }
    requires room { slots patterns.now ≤ N }
    ensures { Answered (substitute_answer (recs template.now) (recs patterns.now) (space out.old)) (substituted_records (recs template.now) (recs patterns.now)) out.old out.new result }
{
    let mut starts = [0u32; N];
    substitute_by(template, patterns, &mut starts, out)
}

// The template with the pattern at its index for each MacroArg. A small table is filled with zeros in less time than a large one.
pub fn substitute(template: &[u8], patterns: &[u8], out: &mut [u8]) -> Answer
    requires { SubstituteReady template.now patterns.now }
    ensures { Answered (substitute_answer (recs template.now) (recs patterns.now) (space out.old)) (substituted_records (recs template.now) (recs patterns.now)) out.old out.new result }
{
    if slots(patterns) <= 256 {
        return substitute_with::<256>(template, patterns, out);
    }
    substitute_with::<65536>(template, patterns, out)
}
