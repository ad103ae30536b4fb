// The table of kinds, a row for each kind: the columns of `Row`, first to last, in the words of specs/Kinds.antt.
ghost use Rattle.std.specs.Prelude.{◌≡◌, ◌+◌, ◌<◌};
ghost use Rattle.forms.specs.Kinds.{row_for};
ghost use Rattle.forms.specs.Table.{kinds_end, row_at, columns_if};

use crate::{Row, Sort, Words};
use trees::Kind;

// All kinds are below this number.
const KINDS_END: u8 = 47;

// A Rule's children follow its flags: it has a row for each number that they may be, and these come first.
const RULES: usize = 4;

// The sort of a child by its name, or none.
macro_rules! child {
    (none) => {
        None
    };
    ($name:ident) => {
        Some(Sort::$name)
    };
}

// Whether there is a position.
macro_rules! position {
    (pos) => {
        true
    };
    (no_pos) => {
        false
    };
}

// A row: sort, flags, position, words: the three single children, any number of a sort, the last one.
macro_rules! row {
    ($sort:ident $flags:literal $position:ident $words:ident: $first:ident $second:ident $third:ident, $any:ident, $last:ident) => {
        Some(Row {
            sort: Sort::$sort,
            flags: $flags,
            position: position!($position),
            words: Words::$words,
            first: child!($first),
            second: child!($second),
            third: child!($third),
            any: child!($any),
            last: child!($last),
        })
    };
}

static ROWS: [Option<Row>; 51] = [
    row!(Definition 4 pos Empty: Pattern none none, IfLet, Expression), // Rule with the flags 0
    row!(Definition 4 pos Empty: Ident Pattern none, IfLet, Expression), // Rule with the flags 1
    row!(Definition 4 pos Empty: Priority Pattern none, IfLet, Expression), // Rule with the flags 2
    row!(Definition 4 pos Empty: Ident Priority Pattern, IfLet, Expression), // Rule with the flags 3
    None, // 0
    row!(Definition 4 pos Empty: Ident TypeValue none, none, none), // 1 TypeDef
    row!(TypeValue 1 pos Empty: Ident none none, none, none), // 2 TypeValuePrimitive
    row!(TypeValue 1 pos Empty: none none none, Variant, none), // 3 TypeValueEnum
    row!(TypeValue 1 pos Empty: Fields none none, none, none), // 4 TypeValueStruct
    row!(Variant 1 pos Empty: Ident Fields none, none, none), // 5 Variant
    row!(Fields 1 no_pos Empty: none none none, none, none), // 6 FieldsUnit
    row!(Fields 1 pos Empty: none none none, StructField, none), // 7 FieldsStruct
    row!(Fields 1 pos Empty: none none none, TupleField, none), // 8 FieldsTuple
    row!(StructField 1 pos Empty: Ident Ident none, none, none), // 9 StructField
    row!(TupleField 1 pos Index: Ident none none, none, none), // 10 TupleField
    row!(Definition 16 pos Empty: Ident none none, Ident, Ident), // 11 Decl
    row!(Definition 2 pos Empty: Ident none none, AttrKind, none), // 12 Attr
    row!(AttrKind 1 no_pos Empty: none none none, none, none), // 13 AttrKindChain
    row!(AttrKind 1 no_pos Empty: none none none, none, none), // 14 AttrKindPriority
    row!(AttrKind 1 no_pos Empty: Ident none none, none, none), // 15 AttrKindTag
    row!(Definition 1 pos Empty: Ident Ident none, none, none), // 16 ExternConstructor
    row!(Definition 2 pos Empty: Ident Ident none, none, none), // 17 ExternExtractor
    row!(Definition 1 pos Empty: Ident Ident none, none, none), // 18 ExternConst
    row!(Definition 1 pos Empty: Ident none none, Ident, Pattern), // 19 Extractor
    row!(Definition 4 pos Empty: Pattern none none, IfLet, Expression), // 20 Rule
    row!(Priority 1 no_pos Index: none none none, none, none), // 21 Priority
    row!(IfLet 1 pos Empty: Pattern Expression none, none, none), // 22 IfLet
    row!(Definition 1 pos Empty: Ident Ident Ident, none, none), // 23 Converter
    row!(Ident 1 pos Range: none none none, none, none), // 24 Ident
    None, // 25
    None, // 26
    None, // 27
    None, // 28
    None, // 29
    row!(Pattern 1 pos Empty: Ident none none, none, none), // 30 PatternVar
    row!(Pattern 1 pos Empty: Ident Pattern none, none, none), // 31 PatternBind
    row!(Pattern 2 pos Empty: none none none, none, none), // 32 PatternConstBool
    row!(Pattern 1 pos Integer: none none none, none, none), // 33 PatternConstInt
    row!(Pattern 1 pos Empty: Ident none none, none, none), // 34 PatternConstPrim
    row!(Pattern 1 pos Empty: Ident none none, Pattern, none), // 35 PatternTerm
    row!(Pattern 1 pos Empty: none none none, none, none), // 36 PatternWildcard
    row!(Pattern 1 pos Empty: none none none, Pattern, none), // 37 PatternAnd
    row!(Pattern 1 pos Index: none none none, none, none), // 38 PatternMacroArg
    None, // 39
    row!(Expression 1 pos Empty: Ident none none, Expression, none), // 40 ExprTerm
    row!(Expression 1 pos Empty: Ident none none, none, none), // 41 ExprVar
    row!(Expression 2 pos Empty: none none none, none, none), // 42 ExprConstBool
    row!(Expression 1 pos Integer: none none none, none, none), // 43 ExprConstInt
    row!(Expression 1 pos Empty: Ident none none, none, none), // 44 ExprConstPrim
    row!(Expression 1 pos Empty: none none none, LetDef, Expression), // 45 ExprLet
    row!(LetDef 1 pos Empty: Ident Ident Expression, none, none), // 46 LetDef
];

// The number of the row of a record's kind and flags.
#[tactic(auto, using(crate::proofs::TableLaws::row_rule, crate::proofs::TableLaws::row_kind, crate::proofs::TableLaws::row_past, crate::proofs::TableLaws::row_bad_flags))]
fn row_number(kind: u8, flags: u8) -> usize
    ensures in_table { result < 4 + kinds_end }
    ensures row { row_at result ≡ row_for kind flags }
{
    if kind == Kind::Rule as u8 {
        if flags < 4 {
            return flags as usize;
        }
        return RULES;
    }
    if kind < KINDS_END {
        return RULES + kind as usize;
    }
    RULES
}

// The row of a record's kind and flags, or none where no kind has that number.
pub fn row_of(kind: u8, flags: u8) -> Option<Row>
    ensures { columns_if result ≡ row_for kind flags }
{
    let i = row_number(kind, flags);
    ROWS[i]
}
