// The files of answers, each replayed to its end.
use crate::output_cases::Entry;
use crate::tallies::{Step, Tally};
use crate::{open_cases, output_cases};
use std::fs;
use std::io::{self, BufRead, BufReader};
use std::ops::ControlFlow;
use std::rt::Files;

// What a file holds cases of: an entry with one output, or opening.
#[derive(Clone, Copy)]
enum Kind {
    Output(Entry),
    Open,
}

impl Kind {
    fn next_case(
        self,
        rt: &impl Print,
        cases: &mut impl BufRead,
        tally: Tally,
    ) -> io::Result<Step> {
        match self {
            Kind::Output(entry) => output_cases::next_case(rt, cases, entry, tally),
            Kind::Open => open_cases::next_case(rt, cases, tally),
        }
    }
}

// Nothing says that a file ends, so the turns are counted up to a number that no file uses up.
fn all_cases(rt: &impl Print, cases: &mut impl BufRead, kind: Kind) -> io::Result<Tally> {
    let mut tally = Tally::default();
    for _ in 0..1000000000u64 {
        match kind.next_case(rt, cases, tally)? {
            ControlFlow::Continue(more) => tally = more,
            ControlFlow::Break(last) => return Ok(last),
        }
    }
    Ok(tally)
}

fn replay(
    rt: &(impl Files + Print + Alloc),
    name: &str,
    label: &str,
    kind: Kind,
) -> io::Result<()> {
    match fs::open(rt, name) {
        Ok(file) => {
            let mut cases = BufReader::new(rt.alloc(), file)?;
            let tally = all_cases(rt, &mut cases, kind)?;
            println!(rt; "{label}: {tally}")
        }
        Err(_) => println!(rt; "{name}: cannot be opened"),
    }
}

pub fn replay_all(rt: &(impl Files + Print + Alloc)) -> io::Result<()> {
    let files = [
        ("read.answers", "reading", Kind::Output(Entry::Read)),
        ("text.answers", "reading text", Kind::Output(Entry::Text)),
        (
            "template.answers",
            "template making",
            Kind::Output(Entry::Make),
        ),
        (
            "substitute.answers",
            "substitution",
            Kind::Output(Entry::Fill),
        ),
        ("open.answers", "opening", Kind::Open),
    ];
    for (name, label, kind) in files {
        replay(rt, name, label, kind)?;
    }
    Ok(())
}
