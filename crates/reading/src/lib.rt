// Reading a lent token list whole: the checks 7, 1 and 2, the parser, 6, and what the output then holds.
#![tactic(auto)]

ghost use Rattle.std.specs.Prelude.{◌≡◌, ℕ, ◌+◌, ◌/◌, ◌≤◌, ◌<◌, length, Ok};
ghost use Rattle.records.specs.Slots.{slots};
ghost use Rattle.records.specs.Grounds.{number};
ghost use Rattle.tokens.specs.Input.{input};
ghost use Rattle.steps.specs.Met.{seen, state, Met};
ghost use Rattle.parser.specs.Reading.{stopped, reading};
ghost use Rattle.reading.specs.Answered.{Answered, Finished, FinishedAs, Countable, CountableAs};
ghost use Rattle.reading.specs.Checked.{parse_checked, Checked};

use records::{Ground, accepted, refused, refused_on};
use steps::{Refusal, Source, State, Stop};
use tokens::Token;
use tokens::lent::first_bad;
use words::{clear, clear_from};

// A refusal, and an output of zeros.
// Kept: of any number; its contract has landed and may not ask more. refuse_on is for a ground.
pub fn refuse(out: &mut [u8], code: u8, place: u32) -> u64
    ensures { Answered (stopped code place) (length out.old) out.new result }
{
    clear(out);
    refused(code, place)
}

// The same for one of the grounds.
pub fn refuse_on(out: &mut [u8], why: Ground, place: u32) -> u64
    ensures { Answered (stopped (number why) place) (length out.old) out.new result }
{
    clear(out);
    refused_on(why, place)
}

// The end where n records were read: they are kept, with zeros after them, or 6.
fn settle(out: &mut [u8], n: usize) -> u64
    requires { n < 16777216 }
    ensures { Finished (Ok (state 0 n 0)) out.old out.new result }
{
    if out.len() / 24 < n {
        return refuse_on(out, Ground::NoSpace, 0);
    }
    clear_from(out, n * 24);
    accepted(n as u64)
}

// The end of reading: what it leaves in the output, and what it returns.
// Kept: of a refusal of any number; its contract has landed and may not ask more. finish_on is for one of the grounds.
pub fn finish(out: &mut [u8], p: Result<State, Refusal>) -> u64
    requires { CountableAs p }
    ensures { FinishedAs p out.old out.new result }
{
    match p {
        Ok(q) => settle(out, q.count),
        Err(e) => refuse(out, e.code, e.place),
    }
}

// The same where it is refused for one of the grounds, as by the parser.
pub fn finish_on(out: &mut [u8], p: Result<State, Stop>) -> u64
    requires { Countable p }
    ensures { Finished p out.old out.new result }
{
    finish(out, p.map_err(Refusal::from))
}

// Whether tokens are few, their text is short, and each of them is whole and good; else the refusal: 7, 1 or 2.
fn check(s: &Source) -> Result<(), Stop>
    ensures { Checked (seen s.now) result }
{
    let count = s.tokens.len() / Token::WIDTH;
    if 16384 < count {
        return Err(Stop::before_tokens(Ground::TooMuch, 0));
    }
    if 65536 < s.text.len() {
        return Err(Stop::before_tokens(Ground::TooMuch, 0));
    }
    if s.tokens.len() % Token::WIDTH != 0 {
        return Err(Stop::before_tokens(Ground::PartOfARecord, 0));
    }
    if let Some(bad) = first_bad(s.tokens, s.text, s.end) {
        return Err(Stop::before_tokens(Ground::BadToken, bad as u32));
    }
    Ok(())
}

// The definitions that tokens are, once they are checked.
fn parse(s: &Source, out: &mut [u8]) -> Result<State, Stop>
    ensures reads { Met (parse_checked (seen s.now)) 0 0 out.old out.new result }
    ensures countable { Countable result }
{
    check(s)?;
    parser::parse(s, out)
}

// Any tokens, any text, any output.
pub fn read(tokens: &[u8], text: &[u8], end: u32, out: &mut [u8]) -> u64
    ensures { Answered (reading (input tokens.now text.now end) (slots out.old)) (length out.old) out.new result }
{
    let p = parse(&Source { tokens, text, end }, out);
    finish_on(out, p)
}
