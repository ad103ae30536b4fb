// Lent lists that are of their kind and within the limits.
ghost use Rattle.judging.specs.Props.{shaped};
ghost use Rattle.judging.specs.Whole.{DefinitionsShaped, PatternShaped};

// Definitions.
#[derive(Clone, Copy)]
pub struct Definitions<'a> {
    pub records: &'a [u8],
    pub ghost is: { DefinitionsShaped records.now } by { Prim.hlevel shaped },
}

// One pattern.
#[derive(Clone, Copy)]
pub struct Pattern<'a> {
    pub records: &'a [u8],
    pub ghost is: { PatternShaped records.now } by { Prim.hlevel shaped },
}
