// Making a template and substituting for lent lists: the checks 7, 1 and 3, the work, and what the output then holds.
#![tactic(auto)]

ghost use Rattle.std.specs.Prelude.{◌≡◌, ◌≤◌, ℕ, Bool, length};
ghost use Rattle.records.specs.Slots.{slots, recs};
ghost use Rattle.records.specs.Grounds.{number};
ghost use Rattle.forms.specs.Kinds.{pattern as form_of_a_pattern};
ghost use Rattle.forms.specs.Forms.{is_one, is_many};
ghost use Rattle.templating.specs.Calls.{Ended, stopped, refusal, sizes, fault, making, substituting};

use forms::judge::{idents, many_patterns, one_pattern};
use records::{Ground, refused};
use templates::finish;
use templates::making::make_template;
use templates::substituting::substitute;
use words::clear;

// A text has at most so many bytes, a list so many records.
const MOST: usize = 65536;

// A refusal, and an output of zeros.
// It is of any number, as it promised; refuse_on is for a ground.
pub fn refuse(out: &mut [u8], code: u8) -> u64
    ensures { Ended (stopped code) (length out.old) out.new result }
{
    clear(out);
    refused(code, 0)
}

// The same for one of the grounds.
pub fn refuse_on(out: &mut [u8], reason: Ground) -> u64
    ensures { Ended (stopped (number reason)) (length out.old) out.new result }
{
    refuse(out, reason as u8)
}

// A text and two record lists of these lengths in bytes: whether one is too long, or a list ends inside a record.
pub fn sizes(text: usize, first: usize, second: usize) -> Result<(), Ground>
    ensures { refusal result ≡ sizes text first second }
{
    if text > MOST || first / 24 > MOST || second / 24 > MOST {
        return Err(Ground::TooMuch);
    }
    if first % 24 != 0 || second % 24 != 0 {
        return Err(Ground::PartOfARecord);
    }
    Ok(())
}

// Whether a text and two lists are what a call takes: none is too long, no list ends inside a record, the first is one pattern, and `judge`
// takes the second, which tells whether it is any number of trees of one sort.
pub fn check<F: FnOnce(&[u8], usize) -> bool>(
    text: &[u8],
    one: &[u8],
    many: &[u8],
    judge: F,
) -> Result<(), Ground>
    ghost sort: { ℕ }
    requires callable { slots many.now ≤ 65536 → F.pre judge many (length text.now) }
    requires tells { (r : Bool) → F.post judge many (length text.now) r → r ≡ is_many (length text.now) sort (recs many.now) }
    ensures { refusal result ≡ fault (sizes (length text.now) (length one.now) (length many.now)) (is_one (length text.now) form_of_a_pattern (recs one.now)) (is_many (length text.now) sort (recs many.now)) }
{
    sizes(text.len(), one.len(), many.len())?;
    if !one_pattern(one, text.len()) || !judge(many, text.len()) {
        return Err(Ground::MalformedList);
    }
    Ok(())
}

// The template of any lent list by any other.
pub fn make(text: &[u8], pattern: &[u8], params: &[u8], out: &mut [u8]) -> u64
    ensures { Ended (making text.now pattern.now params.now out.old) (length out.old) out.new result }
{
    if let Err(reason) = check(text, pattern, params, idents) {
        return refuse_on(out, reason);
    }
    let answer = make_template(text, pattern, params, out);
    finish(out, answer)
}

// The pattern of any lent list by any other.
pub fn fill(text: &[u8], template: &[u8], patterns: &[u8], out: &mut [u8]) -> u64
    ensures { Ended (substituting text.now template.now patterns.now out.old) (length out.old) out.new result }
{
    if let Err(reason) = check(text, template, patterns, many_patterns) {
        return refuse_on(out, reason);
    }
    let answer = substitute(template, patterns, out);
    finish(out, answer)
}
