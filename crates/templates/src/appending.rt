// Appending to an output.
ghost use Rattle.std.specs.Prelude.{◌≡◌, [], ◌∷◌, ◌≤◌, IfErr};
ghost use Rattle.records.specs.Slots.{slots};
ghost use Rattle.templates.specs.Writing.{Empty, Wrote, SameLent, slice};

use crate::Refused;
use crate::output::Output;
use records::{put, rec_at, slots};
use trees::Rec;

// A list that is written has at most so many records.
const MOST: usize = 65536;

impl<'a> Output<'a> {
    // An empty output in lent bytes.
    pub fn new(bytes: &'a mut [u8]) -> Output<'a>
        ensures same_reference { result.bytes.ghost_name ≡ bytes.entry.ghost_name }
        ensures empty { Empty bytes.old result }
    {
        let room = slots(bytes).min(MOST);
        Output {
            bytes,
            written: 0,
            room,
        }
    }

    // Appends r.
    pub fn append(&mut self, r: Rec) -> Result<(), Refused>
        ensures wrote { Wrote self.old (r ∷ []) self.new result }
        ensures same { SameLent self.old self.new }
        ensures none_written { IfErr result (λ e. self.new.written ≡ self.old.written) }
    {
        if self.room <= self.written {
            return Err(Refused::NoSpace);
        }
        put(self.bytes, self.written, r);
        self.written += 1;
        Ok(())
    }

    // Appends the records from slot `from` up to slot `upto` of a list.
    pub fn append_slice(&mut self, list: &[u8], from: usize, upto: usize) -> Result<(), Refused>
        requires ordered { from ≤ upto }
        requires inside { upto ≤ slots list.now }
        ensures wrote { Wrote self.old (slice list.now from upto) self.new result }
        ensures same { SameLent self.old self.new }
        ensures none_written { IfErr result (λ e. self.new.written ≡ self.old.written) }
    {
        if self.room - self.written < upto - from {
            return Err(Refused::NoSpace);
        }
        // Kept: a copy of bytes would ask in each contract of an output that its room lies in the lent bytes, which `put` does not ask.
        for i in from..upto {
            put(self.bytes, self.written, rec_at(list, i));
            self.written += 1;
        }
        Ok(())
    }
}
