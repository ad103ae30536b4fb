// Opening a tree of the source into the store or into the output. It stops as soon as the space is full.
ghost use Rattle.std.specs.Prelude.{[], ◌∷◌};
ghost use Rattle.opening.specs.Wrote.{Appendable, Wrote};
ghost use Rattle.opening.specs.Walk.{ReadyTo, RoomIn, CalledIn, OpenedBy, FilledBy};

use crate::Side;
use crate::ends::Forest;
use crate::made::{Parameters, call_at, made_at};
use judging::table::Extractors;
use records::{put, rec_at};
use trees::{Kind, Rec};

// What opening reads: the extractors, where the opened template of each begins in the store, the source and the parameters in it; and
// which output it writes, with space for how many records.
#[derive(Clone, Copy)]
pub struct Opening<'a> {
    pub known: Extractors<'a>,
    pub starts: &'a [usize],
    pub source: Forest<'a>,
    pub params: Parameters,
    pub to: Side,
    pub space: usize,
}

// Kept: the store and the output apart, not as one `&mut Outputs`: with that a call that writes much took a tenth more time.
impl Opening<'_> {
    // Appends the record r after n of them: how many there are then, if there is space for it.
    fn append(&self, store: &mut [u8], out: &mut [u8], n: usize, r: Rec) -> Option<usize>
        requires { Appendable self.now.to self.now.space store.old out.old n }
        ensures { Wrote self.now.to self.now.space store.old out.old n (r ∷ []) store.new out.new result }
    {
        if n == self.space {
            return None;
        }
        match self.to {
            Side::Store => put(store, n, r),
            Side::Output => put(out, n, r),
        }
        Some(n + 1)
    }

    // Appends the opened template of the extractor x, with the arguments of the call at the index k of the source, each opened.
    #[cycle(open_one_scan)]
    fn scan(&self, store: &mut [u8], out: &mut [u8], k: usize, x: usize, m: usize) -> Option<usize>
        requires { CalledIn self.now k x store.old out.old m }
        ensures { FilledBy self.now k store.old out.old m store.new out.new result }
    {
        let mut y = m;
        let mut from = k + 1;
        let mut last = 0;
        for j in self.starts[x]..self.starts[x + 1] {
            let r = rec_at(store, j);
            if r.kind == Kind::PatternMacroArg as u8 {
                let c = r.word1 as usize + 1;
                from = self.source.child_at(k, from, last, c);
                last = c;
                y = self.open_one(store, out, from, y)?;
                continue;
            }
            y = self.append(store, out, y, r)?;
        }
        Some(y)
    }

    // Appends the tree at the index i of the source, opened.
    #[cycle(open_one_scan)]
    pub fn open_one(&self, store: &mut [u8], out: &mut [u8], i: usize, m: usize) -> Option<usize>
        requires readied { ReadyTo self.now i store.old }
        requires room { RoomIn self.now store.old out.old m }
        ensures { OpenedBy self.now i store.old out.old m store.new out.new result }
    {
        let mut todo = 1;
        let mut k = i;
        let mut y = m;
        // Kept: a call and what stands for a parameter are passed as whole trees, so that no range says the next index.
        while todo > 0 {
            if let Some(x) = call_at(&self.known, self.source.records, k) {
                y = self.scan(store, out, k, x, y)?;
                todo -= 1;
                k = self.source.end_at(k);
                continue;
            }
            let made = made_at(self.known.text, &self.source, self.params, k);
            y = self.append(store, out, y, made.rec)?;
            todo = todo - 1 + made.rec.count as usize;
            k = made.next;
        }
        Some(y)
    }
}
