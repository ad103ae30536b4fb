// The first of a row of names that is the one sought, by an order of their numbers that is searched by halves. Nothing is proved of how the
// order is made: it is tried with each name once, and that it leads each to the first of its kind is all that a search needs.
ghost use Rattle.std.specs.Prelude.{◌≡◌, ◌+◌, ◌<◌, ◌≤◌, length, take, IfSome};
ghost use Rattle.std.specs.Option.{ForSome};
ghost use Rattle.trees.specs.Names.{spelled};
ghost use Rattle.names.specs.Order.{First, SameNames, Checked};

use crate::compare::{comes_before, same_name};
use crate::places::{Places, is_marked};
use crate::row::Names;
use tokens::names::spelling;

// An order of the names whose lengths are marked, all of them where there are no marks: it leads each of them to the first of its kind.
#[derive(Clone, Copy)]
pub struct Order<'a> {
    pub places: Places<'a>,
    pub marks: &'a [u8],
    pub ghost leads_to_first: { Checked places.names places.numbers.now marks.now places.names.n },
}

impl<'a> Order<'a> {
    // The number of the first name that is the one sought: by the order, where it has names of that length.
    #[tactic(auto, using(crate::proofs::Laws::sought_here, crate::proofs::Laws::sought_none))]
    fn sought(&self, w: u64) -> Option<usize>
        ensures { First self.now.places.names (spelled self.now.places.names.text.now w) result }
    {
        let names = &self.places.names;
        if !is_marked(names.text, self.marks, w) {
            return names.seek(w);
        }
        let k = self.places.led(w);
        same_name(names.text, w, names.range_at(k)).then_some(k)
    }
}

// The number of the first name that is the one sought: by the order, if there is one, else one after another.
#[tactic(auto, using(crate::proofs::Laws::first_same))]
pub fn find(names: &Names, order: Option<&Order>, w: u64) -> Option<usize>
    requires { ForSome order (λ o. SameNames o.now.places.names names.now) }
    ensures { First names.now (spelled names.now.text.now w) result }
{
    // Kept: with map_or_else(|| names.seek(w), |order| order.sought(w)) the proof learns nothing of what the first closure returns.
    match order {
        Some(order) => order.sought(w),
        None => names.seek(w),
    }
}

// Puts k at place i of m, and moves the later ones on.
// Kept: Vec::insert would be this, but there is no heap: the places are a lent slice, and m says how many of them are filled.
fn insert(places: &mut [u32], m: usize, i: usize, k: u32)
    requires in_order { i ≤ m }
    requires room { m < length places.old }
{
    places.copy_within(i..m, i + 1);
    places[i] = k;
}

// Where a name goes, if none equal to it is there already.
fn gap(names: &Names, places: &[u32], w: u64) -> Option<usize>
    requires few { length places.now ≤ names.now.n }
    ensures { IfSome result (λ i. i ≤ length places.now) }
{
    if places.is_empty() {
        return Some(0);
    }
    let places = Places {
        names: *names,
        numbers: places,
    };
    let i = places.place(w);
    let x = names.range_at(places.entry(i));
    if same_name(names.text, w, x) {
        return None;
    }
    Some(i + usize::from(!comes_before(names.text, w, x)))
}

// The order with the name j in it, if it is of a marked length and the first of its kind; how many there are. The name 0 is always there: no
// order is then empty, and should its length not be marked, it is never compared with one of its length.
fn add(names: &Names, places: &mut [u32], m: usize, marks: &[u8], j: usize) -> usize
    requires of_a_name { j < names.now.n }
    requires few { names.now.n ≤ 65536 }
    requires room { names.now.n ≤ length places.old }
    requires one_each { m ≤ j }
    ensures { result ≤ j + 1 }
{
    let w = names.range_at(j);
    if 0 < j && !is_marked(names.text, marks, w) {
        return m;
    }
    match gap(names, &places[..m], w) {
        Some(i) => {
            insert(places, m, i, j as u32);
            m + 1
        }
        None => m,
    }
}

// The order of the names of marked lengths; how many there are.
// Kept: that the names are few and the places enough is a premise in the three that make an order: the places get a struct once they are made.
fn put_in_order(names: &Names, places: &mut [u32], marks: &[u8]) -> usize
    requires few { names.now.n ≤ 65536 }
    requires room { names.now.n ≤ length places.old }
    ensures { result ≤ names.now.n }
{
    let mut m = 0;
    for j in 0..names.n {
        m = add(names, places, m, marks, j);
    }
    m
}

// Puts the names of marked lengths in order: how many of the places hold it. None does where the names do not lead to the first of their kind.
pub fn prepare(names: &Names, places: &mut [u32], marks: &[u8]) -> usize
    requires few { names.now.n ≤ 65536 }
    requires room { names.now.n ≤ length places.old }
    ensures few { result ≤ names.now.n }
    ensures leads_to_first { 0 < result → Checked names.now (take result places.new) marks.now names.now.n }
{
    let m = put_in_order(names, places, marks);
    if m == 0 {
        return 0;
    }
    let places = Places {
        names: *names,
        numbers: &places[..m],
    };
    if places.is_checked(marks) { m } else { 0 }
}

// The order that places hold, if they hold one.
fn taken<'a>(names: Names<'a>, places: &'a [u32], marks: &'a [u8]) -> Option<Order<'a>>
    requires few { length places.now ≤ names.n }
    requires leads_to_first { 0 < length places.now → Checked names places.now marks.now names.n }
    ensures same_names { IfSome result (λ o. o.places.names ≡ names.entry) }
    ensures same_marks { IfSome result (λ o. o.marks.now ≡ marks.now) }
{
    if places.is_empty() {
        return None;
    }
    let places = Places {
        names,
        numbers: places,
    };
    Some(Order { places, marks })
}

// The same as an order that holds the places, if there is one.
pub fn prepared<'a>(names: Names<'a>, places: &'a mut [u32], marks: &'a [u8]) -> Option<Order<'a>>
    requires few { names.n ≤ 65536 }
    requires room { names.n ≤ length places.old }
    ensures same_names { IfSome result (λ o. o.places.names ≡ names.entry) }
    ensures same_marks { IfSome result (λ o. o.marks.now ≡ marks.now) }
{
    let m = prepare(&names, places, marks);
    taken(names, &places[..m], marks)
}

// Names of the length of that at the range w are to be in the order.
pub fn mark(text: &[u8], marks: &mut [u8], w: u64)
    ensures { length marks.new ≡ length marks.old }
{
    let len = spelling(text, w).len();
    if len < marks.len() {
        marks[len] = 1;
    }
}
