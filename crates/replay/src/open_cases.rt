// The cases of opening. A case of `open.answers`: text length, record counts of the definition list, of the pattern, of the store lent and
// of the output lent (32 bits each), the number returned (64 bits), text, definition list, pattern, and after an acceptance the store and
// the output; the most significant byte first.
ghost use Rattle.std.specs.Prelude.{◌≡◌, ◌+◌, ◌≤◌, true, length};
ghost use Rattle.replay.specs.Agreed.{agreed_both};
ghost use Rattle.replay.specs.Counted.{after_opening};
ghost use Rattle.replay.specs.Said.{opened_of};
ghost use Rattle.replay.specs.SmallOpening.{SmallOpening};

use crate::outputs::{holds, prefill, same_answer};
use crate::stored::filled;
use crate::tallies::{Step, Tally, damaged};
use openings::open;
use std::io::{self, BufRead};
use std::ops::ControlFlow;
use words::word;

// What opening is called with; and what is stored of it: the number, and what the store and the output hold.
#[derive(Clone, Copy)]
struct Answered<'a> {
    text: &'a [u8],
    defs: &'a [u8],
    pattern: &'a [u8],
    answer: u64,
    stored: &'a [u8],
    written: &'a [u8],
}

impl Answered<'_> {
    // Whether the entry answers that number, and leaves the records and then zeros in the store and in the output.
    fn agrees(&self, store: &mut [u8], out: &mut [u8]) -> bool
        ensures { result ≡ agreed_both (opened_of self.now (length store.old) (length out.old)) self.now.answer self.now.stored.now self.now.written.now }
    {
        prefill(store);
        prefill(out);
        let number = open(self.text, self.defs, self.pattern, store, out);
        if !holds(store, self.stored) {
            return false;
        }
        same_answer(number, out, self.answer, self.written)
    }

    // Just the sizes that the case names; and a part of a record more, which is no more space.
    fn compare(&self, store: &mut [u8], s: usize, out: &mut [u8], o: usize, tally: Tally) -> Tally
        requires s_in_bounds { s + 10 ≤ length store.old }
        requires o_in_bounds { o + 10 ≤ length out.old }
        ensures { result.differ ≡ after_opening tally.differ (opened_of self.now) s o self.now.answer self.now.stored.now self.now.written.now }
    {
        let exact = self.agrees(&mut store[..s], &mut out[..o]);
        let more = self.agrees(&mut store[..s + 10], &mut out[..o + 10]);
        tally.case().call(exact).call(more)
    }
}

// Sizes in bytes: of the lists, of the store and the output that are lent, and of what the case says that they hold.
#[derive(Clone, Copy)]
struct Opening {
    text: usize,
    defs: usize,
    pattern: usize,
    store: usize,
    out: usize,
    stored: usize,
    written: usize,
    answer: u64,
}

// What the store or the output of so many bytes holds: nothing after a refusal.
fn kept(answer: u64, size: usize) -> usize
    ensures { result ≤ size }
{
    if answer < 72057594037927936 {
        return size;
    }
    0
}

impl Opening {
    fn of(head: &[u8; 28]) -> Opening {
        let sizes = word(head, 0);
        let more = word(head, 8);
        let out = (word(head, 12) % 4294967296 * 24) as usize;
        let store = (more % 4294967296 * 24) as usize;
        let answer = word(head, 20);
        Opening {
            text: (sizes / 4294967296) as usize,
            defs: (sizes % 4294967296 * 24) as usize,
            pattern: (more / 4294967296 * 24) as usize,
            store,
            out,
            stored: kept(answer, store),
            written: kept(answer, out),
            answer,
        }
    }

    // Whether the case is within the limits.
    fn is_small(self) -> bool
        ensures { result ≡ true → SmallOpening self }
    {
        let lists = self.text <= 98304 && self.defs <= 98304 && self.pattern <= 98304;
        let outputs = self.store <= 98304 && self.out <= 98304;
        lists && outputs && self.stored <= 98304 && self.written <= 98304
    }
}

fn filled_lists(
    cases: &mut impl BufRead,
    text: &mut [u8],
    defs: &mut [u8],
    pattern: &mut [u8],
) -> io::Result<bool> {
    Ok(filled(cases, text)? && filled(cases, defs)? && filled(cases, pattern)?)
}

// The rest of a case: parts of buffers, of just the sizes that it names. The store and the output have room for 4,096 records and a part of
// one.
// Kept: the buffers are arrays on the stack, not Vecs of these sizes, since a Vec would be a new way to fail.
fn replay_case(
    rt: &impl Print,
    cases: &mut impl BufRead,
    c: Opening,
    tally: Tally,
) -> io::Result<Step>
    requires { SmallOpening c }
{
    let mut text_space = [0u8; 98304];
    let mut def_space = [0u8; 98304];
    let mut pattern_space = [0u8; 98304];
    let mut stored_space = [0u8; 98304];
    let mut written_space = [0u8; 98304];
    let text = &mut text_space[..c.text];
    let defs = &mut def_space[..c.defs];
    let pattern = &mut pattern_space[..c.pattern];
    let stored = &mut stored_space[..c.stored];
    let written = &mut written_space[..c.written];
    if !filled_lists(cases, text, defs, pattern)? {
        return damaged(rt, tally);
    }
    if !filled(cases, stored)? || !filled(cases, written)? {
        return damaged(rt, tally);
    }
    let mut store = [0u8; 98314];
    let mut out = [0u8; 98314];
    let answered = Answered {
        text,
        defs,
        pattern,
        answer: c.answer,
        stored,
        written,
    };
    Ok(ControlFlow::Continue(answered.compare(&mut store, c.store, &mut out, c.out, tally)))
}

// The next case, where the file has one.
pub fn next_case(rt: &impl Print, cases: &mut impl BufRead, tally: Tally) -> io::Result<Step> {
    if cases.fill_buf()?.is_empty() {
        return Ok(ControlFlow::Break(tally));
    }
    let mut head = [0u8; 28];
    if !filled(cases, &mut head)? {
        return damaged(rt, tally);
    }
    let c = Opening::of(&head);
    if c.is_small() {
        return replay_case(rt, cases, c, tally);
    }
    damaged(rt, tally)
}
