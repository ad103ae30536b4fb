// Pattern::make_macro_template and Pattern::subst_macro_args of ast.rs, as scans of record lists.
#![tactic(auto)]

pub mod appending;
pub mod making;
pub mod output;
pub mod scans;
pub mod substituting;

ghost use Rattle.std.specs.Prelude.{◌≡◌};
ghost use Rattle.templates.specs.Answers.{refusal_of, number_of, Countable, Finished};

use records::{Ground, accepted, refused_on};
use words::{clear, clear_from};

// Why no template is made, or none is filled: the first record that is refused, a MacroArg where none may stand or one with no pattern at
// its index; or that the complete list is longer than the space.
#[derive(Clone, Copy, Debug, PartialEq, Eq)]
pub enum Refused {
    MacroArg { at: u32 },
    NoPattern { at: u32 },
    NoSpace,
}

impl Refused {
    // What an entry returns for it.
    pub fn number(self) -> u64
        ensures { result ≡ refusal_of self }
    {
        match self {
            Refused::MacroArg { at } => refused_on(Ground::MacroArg, at),
            Refused::NoPattern { at } => refused_on(Ground::MacroArgIndex, at),
            Refused::NoSpace => refused_on(Ground::NoSpace, 0),
        }
    }
}

// What making a template or substituting comes to: the count of records written, or why there are none.
pub type Answer = Result<u32, Refused>;

// The number of an answer.
pub fn number(a: Answer) -> u64
    requires { Countable a }
    ensures { result ≡ number_of a }
{
    match a {
        Ok(count) => accepted(count as u64),
        Err(refused) => refused.number(),
    }
}

// The end of an entry: what it leaves in the output, and what it returns.
pub fn finish(out: &mut [u8], a: Answer) -> u64
    requires { Countable a }
    ensures { Finished a out.old out.new result }
{
    let Ok(count) = a else {
        clear(out);
        return number(a);
    };
    clear_from(out, count as usize * 24);
    number(a)
}
