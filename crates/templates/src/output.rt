// The output of a call: records are appended to it as long as there is space.
ghost use Rattle.std.specs.Prelude.{◌≤◌};

// Lent bytes, how many records were written into them, and for how many there is space.
#[derive(Drop)]
pub struct Output<'a> {
    pub bytes: &'a mut [u8],
    pub written: usize,
    pub room: usize,
    pub ghost within: { written ≤ room },
}
