// Records are written, and counted, through a tally that is lent and advanced in place, as the Rust's parser is. `Tally::emit` and
// `emit_within` are thin: below them `put_within` does the work, above them `emit_at` has plain parameters.
#![tactic(auto)]

ghost use Rattle.std.specs.Prelude.{◌≡◌, ℕ, ◌+◌, ◌<◌};
ghost use Rattle.records.specs.Slots.{slots, put};
ghost use Rattle.tally.specs.Count.{counted};

use records::{put, slots};
use trees::Rec;

// How many records are written, and for how many the output has space.
#[derive(Drop)]
pub struct Tally {
    pub written: usize,
    pub space: usize,
}

// The record r at slot n, where there is space for it.
// Kept: the space is a premise here and below, since document 01 names the three forms: a tally that holds no output, and plain parameters.
fn put_within(out: &mut [u8], n: usize, space: usize, r: Rec)
    requires { space ≡ slots out.old }
    ensures { out.new ≡ put out.old n r }
{
    if n < space {
        put(out, n, r);
    }
}

impl Tally {
    // The record r at the next slot, where there is space for it; counted in any case.
    pub fn emit(&mut self, out: &mut [u8], r: Rec)
        requires { (self.old.space ≡ slots out.old) × (self.old.written < 4294967296) }
        ensures { (self.new ≡ counted self.old) × (out.new ≡ put out.old self.old.written r) }
    {
        put_within(out, self.written, self.space, r);
        self.written += 1;
    }
}

// The same with n records written; how many are written then.
fn emit_within(out: &mut [u8], n: usize, space: usize, r: Rec) -> usize
    requires { (space ≡ slots out.old) × (n < 4294967296) }
    ensures { (result ≡ n + 1) × (out.new ≡ put out.old n r) }
{
    let mut tally = Tally { written: n, space };
    tally.emit(out, r);
    tally.written
}

// The record r as record number n of the output, which has space for its whole slots; the number after it.
pub fn emit_at(out: &mut [u8], n: usize, r: Rec) -> usize
    requires { n < 4294967296 }
    ensures { (result ≡ n + 1) × (out.new ≡ put out.old n r) }
{
    let space = slots(out);
    emit_within(out, n, space, r)
}
