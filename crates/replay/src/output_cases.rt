// The cases of the entries with one output: reading, reading of text, template making and substitution. A case of `template.answers` or
// `substitute.answers`: text length, record counts of the first list, of the second list and of the output (32 bits each), the number
// returned (64 bits), text, first list, second list, records; the most significant byte first. A case of `text.answers` is the same with
// two empty lists. A case of `read.answers`: token count, text length, end position, record count (32 bits each), the number returned
// (64 bits), tokens, text, records; the tokens are its first list here, and its second list is empty. The record count is 0 after a
// refusal. differential/README.md says what the cases are and how the files are made.
ghost use Rattle.std.specs.Prelude.{◌≡◌, ℕ, ◌+◌, ◌*◌, ◌≤◌, true, length};
ghost use Rattle.replay.specs.Agreed.{agreed};
ghost use Rattle.replay.specs.Counted.{after_room, after_short, after_case};
ghost use Rattle.replay.specs.Said.{says, said, said_of, first_size};
ghost use Rattle.replay.specs.SmallCase.{SmallCase};

use crate::outputs::{prefill, same_answer, without_space};
use crate::stored::filled;
use crate::tallies::{Step, Tally, damaged};
use reading::read;
use std::io::{self, BufRead};
use std::ops::ControlFlow;
use templating::{fill, make};
use texts::read_text;
use tokens::Token;
use words::word;

#[derive(Clone, Copy, PartialEq, Eq)]
pub enum Entry {
    Read,
    Text,
    Make,
    Fill,
}

// What an entry is called with; and the first list of a case of text, which its entry does not take and the larger output counts.
#[derive(Clone, Copy)]
enum Lent<'a> {
    Read {
        tokens: &'a [u8],
        text: &'a [u8],
        end: u32,
    },
    Text {
        text: &'a [u8],
        first: &'a [u8],
    },
    Make {
        text: &'a [u8],
        pattern: &'a [u8],
        params: &'a [u8],
    },
    Fill {
        text: &'a [u8],
        template: &'a [u8],
        args: &'a [u8],
    },
}

impl Lent<'_> {
    fn answer_of(&self, out: &mut [u8]) -> u64
        ensures { says result out.new ≡ said_of self.now (length out.old) }
    {
        match *self {
            Lent::Read { tokens, text, end } => read(tokens, text, end, out),
            Lent::Text { text, .. } => read_text(text, out),
            Lent::Make {
                text,
                pattern,
                params,
            } => make(text, pattern, params, out),
            Lent::Fill {
                text,
                template,
                args,
            } => fill(text, template, args, out),
        }
    }

    // How many bytes its first list has.
    fn first_size(&self) -> usize
        ensures { result ≡ first_size self.now }
    {
        match *self {
            Lent::Read { tokens, .. } => tokens.len(),
            Lent::Text { first, .. } => first.len(),
            Lent::Make { pattern, .. } => pattern.len(),
            Lent::Fill { template, .. } => template.len(),
        }
    }

    // Whether the entry answers that number, and leaves the records and then zeros in the output.
    fn agrees(&self, out: &mut [u8], answer: u64, records: &[u8]) -> bool
        ensures { result ≡ agreed (said_of self.now (length out.old)) answer records.now }
    {
        prefill(out);
        let number = self.answer_of(out);
        same_answer(number, out, answer, records)
    }

    // The same with an output of that size.
    fn agrees_at(&self, out: &mut [u8], size: usize, answer: u64, records: &[u8]) -> bool
        requires { size ≤ length out.old }
        ensures { result ≡ agreed (said_of self.now size) answer records.now }
    {
        self.agrees(&mut out[..size], answer, records)
    }

    // An output of just the size, and a larger one. The larger one has room for every list that reading begins and then refuses, and ends
    // within a record.
    fn compare_room(&self, answer: u64, records: &[u8], out: &mut [u8], tally: Tally) -> Tally
        requires { length records.now + (3 * first_size self.now + 1000) ≤ length out.old }
        ensures { result.differ ≡ after_room tally.differ (said_of self.now) (3 * first_size self.now + 1000) answer records.now }
    {
        let size = records.len();
        let large = size + (3 * self.first_size() + 1000);
        let exact = self.agrees_at(out, size, answer, records);
        let larger = self.agrees_at(out, large, answer, records);
        tally.call(exact).call(larger)
    }

    // An output that lacks a byte, where one is needed at all.
    fn compare_short(&self, answer: u64, size: usize, out: &mut [u8], tally: Tally) -> Tally
        requires { size ≤ length out.old }
        ensures { result.differ ≡ after_short tally.differ (said_of self.now) answer size }
    {
        if size == 0 {
            return tally;
        }
        let none = without_space(answer);
        tally.call(self.agrees_at(out, size - 1, none, b""))
    }

    fn compare(&self, answer: u64, records: &[u8], out: &mut [u8], tally: Tally) -> Tally
        requires { length records.now + (3 * first_size self.now + 1000) ≤ length out.old }
        ensures { result.differ ≡ after_case tally.differ (said_of self.now) (3 * first_size self.now + 1000) answer records.now }
    {
        let t = self.compare_room(answer, records, out, tally.case());
        self.compare_short(answer, records.len(), out, t)
    }
}

// Sizes in bytes; and the end position, which reading alone has.
// Kept: parts of buffers of these sizes are filled for each entry alike; an enum would want a match at each of them.
#[derive(Clone, Copy)]
struct Case {
    entry: Entry,
    text: usize,
    first: usize,
    second: usize,
    end: u32,
    records: usize,
    answer: u64,
}

fn reading_of(head: &[u8; 24]) -> Case {
    let sizes = word(head, 0);
    let more = word(head, 8);
    Case {
        entry: Entry::Read,
        text: (sizes % 4294967296) as usize,
        first: (sizes / 4294967296) as usize * Token::WIDTH,
        second: 0,
        end: (more / 4294967296) as u32,
        records: (more % 4294967296 * 24) as usize,
        answer: word(head, 16),
    }
}

fn lists_of(head: &[u8; 24], entry: Entry) -> Case {
    let sizes = word(head, 0);
    let more = word(head, 8);
    Case {
        entry,
        text: (sizes / 4294967296) as usize,
        first: (sizes % 4294967296 * 24) as usize,
        second: (more / 4294967296 * 24) as usize,
        end: 0,
        records: (more % 4294967296 * 24) as usize,
        answer: word(head, 16),
    }
}

impl Case {
    fn of(head: &[u8; 24], entry: Entry) -> Case {
        match entry {
            Entry::Read => reading_of(head),
            Entry::Text | Entry::Make | Entry::Fill => lists_of(head, entry),
        }
    }

    // What its entry is called with, of what was read: what is said of it is what is said of the entry, the text, the lists and the end.
    #[tactic(auto, unfolding(crate::specs::Said::said))]
    fn lent<'a>(self, text: &'a [u8], first: &'a [u8], second: &'a [u8]) -> Lent<'a>
        ensures meant { (n : ℕ) → said_of result n ≡ said self.entry text.now first.now second.now self.end n }
        ensures counted { first_size result ≡ length first.now }
    {
        match self.entry {
            Entry::Read => Lent::Read {
                tokens: first,
                text,
                end: self.end,
            },
            Entry::Text => Lent::Text { text, first },
            Entry::Make => Lent::Make {
                text,
                pattern: first,
                params: second,
            },
            Entry::Fill => Lent::Fill {
                text,
                template: first,
                args: second,
            },
        }
    }

    // Whether the case is within the limits.
    fn is_small(self) -> bool
        ensures { result ≡ true → SmallCase self }
    {
        self.text <= 65537 && self.first <= 24576 && self.second <= 24576 && self.records <= 24576
    }
}

fn filled_both(cases: &mut impl BufRead, a: &mut [u8], b: &mut [u8]) -> io::Result<bool> {
    Ok(filled(cases, a)? && filled(cases, b)?)
}

// Whether the file went on for the text and the first list: the tokens stand before their text, lists after it.
fn filled_inputs(
    cases: &mut impl BufRead,
    entry: Entry,
    text: &mut [u8],
    first: &mut [u8],
) -> io::Result<bool> {
    match entry {
        Entry::Read => filled_both(cases, first, text),
        Entry::Text | Entry::Make | Entry::Fill => filled_both(cases, text, first),
    }
}

// The rest of a case: parts of buffers, of just the sizes that it names. There is room for a text that is one byte too long and for 1,024
// tokens or records in a list, and in the output for 1,024 records, three records for each of 1,024 tokens, and 1,000 bytes.
// Kept: the buffers are arrays on the stack, not Vecs of these sizes, since a Vec would be a new way to fail.
fn replay_case(rt: &impl Print, cases: &mut impl BufRead, c: Case, tally: Tally) -> io::Result<Step>
    requires { SmallCase c }
{
    let mut text_space = [0u8; 65537];
    let mut first_space = [0u8; 24576];
    let mut second_space = [0u8; 24576];
    let mut record_space = [0u8; 24576];
    let text = &mut text_space[..c.text];
    let first = &mut first_space[..c.first];
    let second = &mut second_space[..c.second];
    let records = &mut record_space[..c.records];
    if !filled_inputs(cases, c.entry, text, first)? {
        return damaged(rt, tally);
    }
    if !filled_both(cases, second, records)? {
        return damaged(rt, tally);
    }
    let mut out = [0u8; 99304];
    let lent = c.lent(text, first, second);
    Ok(ControlFlow::Continue(lent.compare(c.answer, records, &mut out, tally)))
}

// The next case, where the file has one.
pub fn next_case(
    rt: &impl Print,
    cases: &mut impl BufRead,
    entry: Entry,
    tally: Tally,
) -> io::Result<Step> {
    if cases.fill_buf()?.is_empty() {
        return Ok(ControlFlow::Break(tally));
    }
    let mut head = [0u8; 24];
    if !filled(cases, &mut head)? {
        return damaged(rt, tally);
    }
    let c = Case::of(&head, entry);
    if c.is_small() {
        return replay_case(rt, cases, c, tally);
    }
    damaged(rt, tally)
}
