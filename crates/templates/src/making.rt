// Pattern::make_macro_template of ast.rs.
ghost use Rattle.std.specs.Prelude.{◌≡◌, ◌+◌, ◌≤◌, ◌<◌, IfSome, IfNone};
ghost use Rattle.records.specs.Slots.{slots, rec_at, recs};
ghost use Rattle.expansion.specs.Templates.{position};
ghost use Rattle.templates.specs.Answers.{MakeReady, Params, Answered, template_answer, template_records, space};
ghost use Rattle.templates.specs.Props.{leaves};
ghost use Rattle.templates.specs.Writing.{Wrote};
ghost use Rattle.templates.specs.Scans.{option_of, params_of, named_at, wildcard_at, parameter_at, making_from, argument, after_parameter};

use crate::output::Output;
use crate::{Answer, Refused};
use forms::scans::{first_macro_arg, first_where};
use records::{rec_at, rec_there, slots};
use tokens::names::spelling;
use trees::{Kind, Rec};
use words::same;

// A pattern that a template is made of, its parameters, and the text of their names.
#[derive(Clone, Copy)]
struct Making<'a> {
    text: &'a [u8],
    pattern: &'a [u8],
    params: &'a [u8],
    ghost idents: { Params params.now } by { Prim.hlevel leaves },
}

// A Var's name is left out, a Bind's name and Wildcard.
#[tactic(auto, using(crate::proofs::MakeLaws::after_var, crate::proofs::MakeLaws::after_bind))]
fn after_parameter(kind: u8, i: usize) -> usize
    requires { i ≤ 65536 }
    ensures { result ≡ after_parameter kind i }
{
    if kind == Kind::PatternVar as u8 {
        return i + 2;
    }
    i + 3
}

// The MacroArg of the parameter k.
fn argument(pos: u32, k: usize) -> Rec
    ensures { result ≡ argument pos k }
{
    Rec {
        kind: Kind::PatternMacroArg as u8,
        flags: 0,
        count: 0,
        pos,
        word1: k as u64,
        word2: 0,
    }
}

impl<'a> Making<'a> {
    // The first parameter of a name.
    #[tactic(auto, using(crate::proofs::MakeLaws::position_is))]
    fn position(&self, name: &[u8]) -> Option<usize>
        ensures { option_of result ≡ position self.now.text.now name.now (params_of self.now.params.now) }
    {
        let text = self.text;
        first_where(self.params, |p| same(name, spelling(text, p.word1)))
    }

    // The parameter of the name at slot j.
    fn named_at(&self, j: usize) -> Option<usize>
        ensures { option_of result ≡ named_at self.now.text.now self.now.pattern.now j self.now.params.now }
    {
        let name = rec_there(self.pattern, j)?;
        self.position(spelling(self.text, name.word1))
    }

    // Whether a Wildcard stands at slot j.
    fn wildcard_at(&self, j: usize) -> bool
        ensures { result ≡ wildcard_at self.now.pattern.now j }
    {
        rec_there(self.pattern, j).is_some_and(|r| r.kind == Kind::PatternWildcard as u8)
    }

    // The parameter that the record at slot i stands for: that of a Var named as one, or of such a Bind over a Wildcard.
    fn parameter_at(&self, i: usize) -> Option<usize>
        requires { i < slots self.now.pattern.now }
        ensures { option_of result ≡ parameter_at self.now.text.now self.now.pattern.now i self.now.params.now }
    {
        let r = rec_at(self.pattern, i);
        if r.kind == Kind::PatternVar as u8
            || r.kind == Kind::PatternBind as u8 && self.wildcard_at(i + 2)
        {
            return self.named_at(i + 1);
        }
        None
    }

    // Appends the template: of each record a copy, or a MacroArg for what stands for a parameter. Each way reads the record itself: of what
    // a copy wants all of, a MacroArg wants little.
    fn append(&self, out: &mut Output) -> Result<(), Refused>
        requires few { slots self.now.pattern.now ≤ 65536 }
        ensures { Wrote out.old (making_from self.now.text.now self.now.pattern.now 0 self.now.params.now) out.new result }
    {
        let end = slots(self.pattern);
        let mut i = 0;
        // Kept: a step is of one, two or three records, by what stands there, so that no range or chain of iterators gives the slots.
        while i < end {
            match self.parameter_at(i) {
                Some(k) => {
                    let r = rec_at(self.pattern, i);
                    out.append(argument(r.pos, k))?;
                    i = after_parameter(r.kind, i);
                }
                None => {
                    out.append(rec_at(self.pattern, i))?;
                    i += 1;
                }
            }
        }
        Ok(())
    }
}

// The template of a pattern by its parameters.
pub fn make_template(text: &[u8], pattern: &[u8], params: &[u8], out: &mut [u8]) -> Answer
    requires { MakeReady pattern.now params.now }
    ensures { Answered (template_answer text.now (recs pattern.now) (recs params.now) (space out.old)) (template_records text.now (recs pattern.now) (recs params.now)) out.old out.new result }
{
    if let Some(at) = first_macro_arg(pattern) {
        return Err(Refused::MacroArg { at: at as u32 });
    }
    let mut output = Output::new(out);
    Making {
        text,
        pattern,
        params,
    }
    .append(&mut output)?;
    Ok(output.written as u32)
}
