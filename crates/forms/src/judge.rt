// Whether a record may stand where a sort is expected, and whether the records of a list are trees of the sorts expected.
ghost use Rattle.std.specs.Prelude.{◌≡◌, ◌+◌, ◌/◌, ◌%◌, ◌≤◌, ◌<◌, true, false, length, replicate, leb};
ghost use Rattle.records.specs.Slots.{slots, recs, rec_at};
ghost use Rattle.forms.specs.Kinds.{pattern, definition, name};
ghost use Rattle.forms.specs.Sorts.{sort_of, position_of, words_of};
ghost use Rattle.forms.specs.Table.{columns_of};
ghost use Rattle.forms.specs.Forms.{position_ok, words_ok, stands, fits, is_one, is_many};
ghost use Rattle.forms.specs.Stack.{held, NameTaken, VarTaken, Taken, Refused};

use crate::stack::Stack;
use crate::table::row_of;
use crate::{Row, Sort, Words};
use records::{rec_at, slots};
use trees::{Kind, Rec};

// A position, where there is one; else 0.
#[tactic(auto, unfolding(crate::specs::Forms::position_ok))]
fn position_ok(position: bool, x: u32) -> bool
    ensures { result ≡ position_ok (position_of position) x }
{
    position || x == 0
}

// Whether a range, its start and length in one word, ends within a text of t bytes.
fn in_text(t: usize, range: u64) -> bool
    ensures { result ≡ leb (range / 4294967296 + range % 4294967296) t }
{
    (range / 4294967296 + range % 4294967296) as usize <= t
}

// What words 1 and 2 hold, with a text of t bytes.
#[tactic(auto, using(crate::proofs::JudgeLaws::words_empty, crate::proofs::JudgeLaws::words_not_empty, crate::proofs::JudgeLaws::words_index, crate::proofs::JudgeLaws::words_integer, crate::proofs::JudgeLaws::words_range, crate::proofs::JudgeLaws::words_not_range))]
fn words_ok(t: usize, words: Words, a: u64, b: u64) -> bool
    ensures { result ≡ words_ok t (words_of words) a b }
{
    match words {
        Words::Empty => a == 0 && b == 0,
        Words::Index => b == 0,
        Words::Integer => true,
        Words::Range => b == 0 && in_text(t, a),
    }
}

// Whether a record with the row w may stand where the sort s is expected, with a text of t bytes.
fn may_stand(t: usize, s: u32, w: Row, r: Rec) -> bool
    ensures { result ≡ stands t s (columns_of w) r }
{
    w.sort.is_placed(s, r.word1)
        && r.flags < w.flags
        && position_ok(w.position, r.pos)
        && words_ok(t, w.words, r.word1, r.word2)
        && w.singles() <= r.count as usize
}

// A lent list, and how many bytes its text has.
#[derive(Clone, Copy)]
struct Lent<'a> {
    records: &'a [u8],
    text: usize,
    ghost few: { slots records.now ≤ 65536 },
}

impl Lent<'_> {
    // Whether the record at slot i is an Ident that may stand where the sort s is expected: every third record or so is one, and it has no
    // children. What is expected is asked first, so that the record is not taken apart for nothing.
    #[tactic(auto, using(crate::proofs::JudgeLaws::name_taken))]
    fn is_name(&self, i: usize, s: u32) -> bool
        requires { i < slots self.now.records.now }
        ensures { NameTaken self.now.text s (rec_at self.now.records.now i) result }
    {
        if s != Sort::Ident as u32 {
            return false;
        }
        let r = rec_at(self.records, i);
        r.kind == Kind::Ident as u8
            && r.flags == 0
            && r.count == 0
            && r.word2 == 0
            && in_text(self.text, r.word1)
    }

    // Whether the record at slot i is a Var that may stand where the sort s is expected: its one child is a name.
    #[tactic(auto, using(crate::proofs::JudgeLaws::var_taken))]
    fn is_var(&self, i: usize, s: u32) -> bool
        requires { i < slots self.now.records.now }
        ensures { VarTaken s (rec_at self.now.records.now i) result }
    {
        if s != Sort::Pattern as u32 {
            return false;
        }
        let r = rec_at(self.records, i);
        r.kind == Kind::PatternVar as u8
            && r.flags == 0
            && r.count == 1
            && r.word1 == 0
            && r.word2 == 0
    }

    // Takes the record at slot i where the sort s is expected, and puts its children on the stack. Not so where the record may not stand
    // there or where fewer than the expected ones are left after it.
    fn take(&self, i: usize, s: u32, stack: &mut Stack, left: usize) -> bool
        requires there { i < slots self.now.records.now }
        requires below_left { stack.old.top ≤ left }
        requires room { left ≤ length stack.old.sorts.now }
        requires few { left ≤ 65536 }
        ensures taken { result ≡ true → Taken self.now.text s (rec_at self.now.records.now i) left stack.old stack.new }
        ensures refused { result ≡ false → Refused self.now.text s (rec_at self.now.records.now i) left stack.old }
    {
        let r = rec_at(self.records, i);
        let Some(w) = row_of(r.kind, r.flags) else {
            return false;
        };
        let count = r.count as usize;
        if !may_stand(self.text, s, w, r) {
            return false;
        }
        if left < stack.top + count {
            return false;
        }
        stack.push_children(w, count);
        true
    }

    // Whether the records are trees of the sorts on the stack and then any number of the sort `base`, none where there is no such sort.
    fn scan(&self, base: Option<Sort>, mut stack: Stack) -> bool
        requires room { slots self.now.records.now ≤ length stack.sorts.now }
        requires bound { stack.top ≤ length stack.sorts.now }
        ensures { result ≡ fits self.now.text (sort_of base) (held stack.entry) (recs self.now.records.now) }
    {
        let n = slots(self.records);
        if n < stack.top {
            return false;
        }
        let rest = base.map_or(0, |s| s.number() as u32);
        for i in 0..n {
            let s = stack.pop().unwrap_or(rest);
            if self.is_name(i, s) {
                continue;
            }
            let left = n - (i + 1);
            if self.is_var(i, s) && stack.top < left {
                stack.push_name();
                continue;
            }
            if !self.take(i, s, &mut stack, left) {
                return false;
            }
        }
        true
    }

    // The same for n patterns and then any number of the sort `base`, with a stack for N records.
    fn scan_with<const N: usize>(&self, base: Option<Sort>, n: usize) -> bool
        requires size { N ≤ 65536 }
        requires few { slots self.now.records.now ≤ N }
        requires patterns { n ≤ N }
        ensures { result ≡ fits self.now.text (sort_of base) (replicate n pattern) (recs self.now.records.now) }
    {
        let mut sorts = [Sort::Pattern as u32; N];
        let stack = Stack {
            sorts: &mut sorts,
            top: n,
        };
        self.scan(base, stack)
    }
}

// The same for a lent list, where the text has t bytes. A small stack is filled in less time than a large one.
fn scan_any(list: &[u8], t: usize, base: Option<Sort>, n: usize) -> bool
    requires few { slots list.now ≤ 65536 }
    requires patterns { n ≤ 1 }
    ensures { result ≡ fits t (sort_of base) (replicate n pattern) (recs list.now) }
{
    let lent = Lent {
        records: list,
        text: t,
    };
    match slots(list) {
        0..=256 => lent.scan_with::<256>(base, n),
        257..=4096 => lent.scan_with::<4096>(base, n),
        _ => lent.scan_with::<65536>(base, n),
    }
}

// Whether the list is one pattern, where the text has t bytes.
// Kept: here and in what else other crates call the limit is a premise: they hold slices, and a struct with it as a fact would be made anew at
// each of their calls.
pub fn one_pattern(list: &[u8], t: usize) -> bool
    requires { slots list.now ≤ 65536 }
    ensures { result ≡ is_one t pattern (recs list.now) }
{
    scan_any(list, t, None, 1)
}

// Whether the list is any number of patterns.
pub fn many_patterns(list: &[u8], t: usize) -> bool
    requires { slots list.now ≤ 65536 }
    ensures { result ≡ is_many t pattern (recs list.now) }
{
    scan_any(list, t, Some(Sort::Pattern), 0)
}

// Whether the list is definitions.
pub fn definitions(list: &[u8], t: usize) -> bool
    requires { slots list.now ≤ 65536 }
    ensures { result ≡ is_many t definition (recs list.now) }
{
    scan_any(list, t, Some(Sort::Definition), 0)
}

// Whether the list is Idents.
pub fn idents(list: &[u8], t: usize) -> bool
    requires { slots list.now ≤ 65536 }
    ensures { result ≡ is_many t name (recs list.now) }
{
    scan_any(list, t, Some(Sort::Ident), 0)
}
