// What has been compared so far, and what is written of it.
ghost use Rattle.std.specs.Prelude.{◌≡◌};
ghost use Rattle.replay.specs.Counted.{after};

use std::ops::ControlFlow;
use std::{fmt, io};

#[derive(Clone, Copy, Default)]
pub struct Tally {
    pub cases: u64,
    pub calls: u64,
    pub differ: u64,
    // the number of the first case with a difference, the first case being 1
    pub first: Option<u64>,
}

impl Tally {
    // A case begins.
    pub fn case(self) -> Tally
        ensures { result.differ ≡ self.differ }
    {
        Tally {
            cases: self.cases.wrapping_add(1),
            ..self
        }
    }

    // One call more of the present case, and whether it answered as it should.
    pub fn call(self, good: bool) -> Tally
        ensures { result.differ ≡ after self.differ good }
    {
        let mut t = self;
        t.calls = t.calls.wrapping_add(1);
        if good {
            return t;
        }
        t.differ = t.differ.wrapping_add(1);
        t.first = t.first.or(Some(t.cases));
        t
    }
}

impl fmt::Display for Tally {
    fn fmt<W: fmt::Write>(&self, f: &mut fmt::Formatter<W>) -> fmt::Result {
        write!(
            f,
            "{} cases, {} calls, {} differ",
            self.cases, self.calls, self.differ
        )?;
        if let Some(first) = self.first {
            write!(f, "\nfirst difference in case {first}")?;
        }
        Ok(())
    }
}

// What a case leaves: the tally, to go on with or the last one.
pub type Step = ControlFlow<Tally, Tally>;

// A case that is cut short or larger than the buffers counts as one that differs, and is the last one.
pub fn damaged(rt: &impl Print, tally: Tally) -> io::Result<Step> {
    rt.println("a case is cut short or too large")?;
    Ok(ControlFlow::Break(tally.case().call(false)))
}
