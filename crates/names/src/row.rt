// A row of names: the names of n records of a list, from slot `from` on.
ghost use Rattle.std.specs.Prelude.{◌+◌, ◌≤◌};
ghost use Rattle.records.specs.Slots.{slots};

#[derive(Clone, Copy)]
pub struct Names<'a> {
    pub text: &'a [u8],
    pub src: &'a [u8],
    pub from: usize,
    pub n: usize,
    pub ghost in_list: { from + n ≤ slots src.now },
}
