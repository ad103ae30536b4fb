// Judges lent lists, good and damaged, and writes how many were accepted.
// Standard input holds lists: a byte that says what the list should be (0 one pattern, 1 patterns, 2 definitions, 3 Idents),
// a byte that counts its records, and the records. Every kind of record stands in some list, and every list has one root.
// The text has 64 bytes.
#![tactic(auto)]

ghost use Rattle.std.specs.Prelude.{◌≤◌, ◌<◌, length, IfSome};
ghost use Rattle.records.specs.Slots.{slots};

use forms::depth::first_deep;
use forms::judge::{definitions, idents, many_patterns, one_pattern};
use forms::scans::{first_macro_arg, skip};
use records::{put, rec_at, slots};
use std::alloc::Global;
use std::fmt;
use std::io::{self, Read};
use trees::{Head, Kind, Rec};

// What a list should be.
#[derive(Clone, Copy)]
enum Form {
    OnePattern,
    Patterns,
    Definitions,
    Idents,
}

impl From<u8> for Form {
    fn from(byte: u8) -> Form {
        match byte {
            0 => Form::OnePattern,
            1 => Form::Patterns,
            2 => Form::Definitions,
            _ => Form::Idents,
        }
    }
}

// Whether a list is what it should be.
fn judge(form: Form, list: &[u8]) -> bool
    requires { slots list.now ≤ 65536 }
{
    match form {
        Form::OnePattern => one_pattern(list, 64),
        Form::Patterns => many_patterns(list, 64),
        Form::Definitions => definitions(list, 64),
        Form::Idents => idents(list, 64),
    }
}

// A field of a record.
#[derive(Clone, Copy)]
enum Field {
    Kind,
    Flags,
    Count,
    Position,
    Word1,
    Word2,
}

const FIELDS: [Field; 6] = [
    Field::Kind,
    Field::Flags,
    Field::Count,
    Field::Position,
    Field::Word1,
    Field::Word2,
];

impl fmt::Display for Field {
    fn fmt<W: fmt::Write>(&self, f: &mut fmt::Formatter<W>) -> fmt::Result {
        f.write_str(match self {
            Field::Kind => "kind",
            Field::Flags => "flags",
            Field::Count => "child count",
            Field::Position => "position",
            Field::Word1 => "word 1",
            Field::Word2 => "word 2",
        })
    }
}

// The record with that field changed.
fn damaged(r: Rec, field: Field) -> Rec {
    let mut d = r;
    match field {
        Field::Kind => d.kind = r.kind % 100 + 100,
        Field::Flags => d.flags = r.flags % 128 + 1,
        Field::Count => d.count = r.count % 65535 + 1,
        Field::Position => d.pos = r.pos % 2147483648 + 1,
        Field::Word1 => d.word1 = r.word1 % 4294967296 + 1099511627776,
        Field::Word2 => d.word2 = r.word2 % 2147483648 + 1,
    }
    d
}

// Whether the list is accepted with a field of record i damaged, or none. The list is left as it was.
fn try_record(list: &mut [u8], i: usize, field: Option<Field>, form: Form) -> bool
    requires there { i < slots list.old }
    requires few { slots list.old ≤ 65536 }
{
    let r = rec_at(list, i);
    put(list, i, field.map_or(r, |f| damaged(r, f)));
    let accepted = judge(form, list);
    put(list, i, r);
    accepted
}

// How many of the lists with that field damaged in one record are accepted.
fn try_list(list: &mut [u8], field: Option<Field>, form: Form) -> u64
    requires { slots list.old ≤ 65536 }
    ensures { result ≤ 65536 }
{
    let mut accepted = 0;
    for i in 0..slots(list) {
        accepted += u64::from(try_record(list, i, field, form));
    }
    accepted
}

// A list of the input: what it should be, and where its records begin and end.
#[derive(Clone, Copy)]
struct Listed {
    form: Form,
    from: usize,
    to: usize,
}

// The list of the input whose first byte is at `at`, if all of it is there.
fn list_at(input: &[u8], at: usize) -> Option<Listed>
    requires { at ≤ length input.now }
    ensures later { IfSome result (λ l. at < l.from) }
    ensures ordered { IfSome result (λ l. l.from ≤ l.to) }
    ensures inside { IfSome result (λ l. l.to ≤ length input.now) }
{
    if input.len() - at < 2 {
        return None;
    }
    let from = at + 2;
    let to = from + 24 * usize::from(input[at + 1]);
    if input.len() < to {
        return None;
    }
    Some(Listed {
        form: Form::from(input[at]),
        from,
        to,
    })
}

// The same for every list of the input.
fn try_lists(input: &mut [u8], field: Option<Field>) -> u64
    requires { length input.old ≤ 65536 }
{
    let mut accepted = 0;
    let mut at = 0;
    // Kept: here and below each list starts where the one before it ends, so that no range has the starts.
    while let Some(list) = list_at(input, at) {
        accepted += try_list(&mut input[list.from..list.to], field, list.form);
        at = list.to;
    }
    accepted
}

// How many records the input has.
fn count_records(input: &[u8]) -> u64
    requires { length input.now ≤ 65536 }
{
    let mut total = 0;
    let mut at = 0;
    while let Some(list) = list_at(input, at) {
        total += slots(&input[list.from..list.to]) as u64;
        at = list.to;
    }
    total
}

// Records that are all alike but for the first and the last.
fn fill(list: &mut [u8], first: Rec, between: Rec, last: Rec) {
    for i in 0..slots(list) {
        put(list, i, between);
    }
    put(list, 0, first);
    put(list, 65535, last);
}

fn and_of(count: u16) -> Rec {
    Head::plain(Kind::PatternAnd, 0, 1).over(count)
}

fn wildcard() -> Rec {
    Head::plain(Kind::PatternWildcard, 0, 1).over(0)
}

fn line(rt: &impl Print, label: &str, n: u64) -> io::Result<()> {
    println!(rt; "{label}{n}")
}

// For each field, how many lists are accepted with that field of one record damaged; and how many with none.
fn report(rt: &impl Print, input: &mut [u8]) -> io::Result<()>
    requires { length input.old ≤ 65536 }
{
    line(rt, "records: ", count_records(input))?;
    for field in FIELDS {
        let accepted = try_lists(input, Some(field));
        println!(rt; "{field} damaged, accepted: {accepted}")?;
    }
    line(rt, "nothing damaged, accepted: ", try_lists(input, None))
}

// Where nothing is found, the number of records is printed.
fn report_large(rt: &impl Print, list: &[u8]) -> io::Result<()>
    requires { slots list.now ≤ 65536 }
{
    line(rt, "one pattern: ", u64::from(one_pattern(list, 0)))?;
    let n = slots(list);
    line(
        rt,
        "first at depth 65: ",
        first_deep(list).unwrap_or(n) as u64,
    )?;
    line(
        rt,
        "first MacroArg: ",
        first_macro_arg(list).unwrap_or(n) as u64,
    )?;
    line(rt, "after the first tree: ", skip(list, 0, 1) as u64)
}

// 65,536 records, each inside the one before it; then all but the first side by side.
fn large(rt: &impl Print, alloc: Global) -> io::Result<()> {
    let mut list = vec![in alloc; 0u8; 1572864]?;
    fill(&mut list, and_of(1), and_of(1), wildcard());
    report_large(rt, &list)?;
    fill(&mut list, and_of(65535), wildcard(), wildcard());
    report_large(rt, &list)
}

fn main(rt: HostRuntime) -> io::Result<()> {
    let mut input = Vec::new(rt.alloc());
    rt.reader().take(65536).read_to_end(&mut input)?;
    input.truncate(65536);
    report(&rt, &mut input)?;
    large(&rt, rt.alloc())
}
