// The sorts that are still expected, on a stack.
ghost use Rattle.std.specs.Prelude.{◌≡◌, ℕ, [], ◌∷◌, ◌+◌, ◌-◌, ◌≤◌, ◌<◌, length, unwrap_or};
ghost use Rattle.forms.specs.Sorts.{number, sort_of};
ghost use Rattle.forms.specs.Table.{columns_of};
ghost use Rattle.forms.specs.Forms.{one, run, some, singles, leading, sorts_of, next, rest};
ghost use Rattle.forms.specs.Stack.{held, Pushed, Room};

use crate::{Row, Sort};

// The sorts that are expected: those below `top`, the one expected next last.
// Kept: a sort is a number here, with a TupleField's place in it. The promise speaks of these numbers (`fits`), and one comparison of 32
// bits tells whether a record may stand there: a struct of the two would be no plainer.
#[derive(Drop)]
pub(crate) struct Stack<'a> {
    pub(crate) sorts: &'a mut [u32],
    pub(crate) top: usize,
}

impl Stack<'_> {
    // Takes off the sort expected next, if one is left.
    pub(crate) fn pop(&mut self) -> Option<u32>
        requires { self.old.top ≤ length self.old.sorts.now }
        ensures top { (base : ℕ) → unwrap_or result base ≡ next base (held self.old) }
        ensures left { held self.new ≡ rest (held self.old) }
        ensures lower { self.new.top ≡ self.old.top - 1 }
        ensures same_space { length self.new.sorts.now ≡ length self.old.sorts.now }
    {
        if self.top == 0 {
            return None;
        }
        self.top -= 1;
        Some(self.sorts[self.top])
    }

    // Puts a number on the stack.
    fn push(&mut self, sort: u32)
        requires { Room self.old (sort ∷ []) }
        ensures { Pushed self.old self.new (sort ∷ []) }
    {
        self.sorts[self.top] = sort;
        self.top += 1;
    }

    // Puts the sort of names on the stack.
    pub(crate) fn push_name(&mut self)
        requires { self.old.top < length self.old.sorts.now }
        ensures { Pushed self.old self.new (number Sort.Ident ∷ []) }
    {
        self.push(Sort::Ident as u32);
    }

    // Puts a sort on the stack, where there is such a child.
    fn push_one(&mut self, sort: Option<Sort>)
        requires { Room self.old (one (sort_of sort)) }
        ensures { Pushed self.old self.new (one (sort_of sort)) }
    {
        if let Some(s) = sort {
            self.push(s.number() as u32);
        }
    }

    // Puts n children of a sort on the stack, the first on top.
    fn push_run(&mut self, sort: Option<Sort>, n: usize)
        requires room { self.old.top + n ≤ length self.old.sorts.now }
        requires few { n ≤ 65536 }
        ensures { Pushed self.old self.new (run (sort_of sort) 0 n) }
    {
        for p in (0..n).rev() {
            self.push(sort.map_or(0, |s| s.placed(p)));
        }
    }

    // Puts the single children that come first on the stack, the first on top.
    fn push_leading(&mut self, w: Row)
        requires { Room self.old (leading (columns_of w)) }
        ensures { Pushed self.old self.new (leading (columns_of w)) }
    {
        self.push_one(w.third);
        self.push_one(w.second);
        self.push_one(w.first);
    }

    // Puts c children of a record with the row w on the stack, the first on top.
    pub(crate) fn push_children(&mut self, w: Row, c: usize)
        requires room { self.old.top + c ≤ length self.old.sorts.now }
        requires enough { singles (columns_of w) ≤ c }
        requires few { c ≤ 65536 }
        ensures { Pushed self.old self.new (sorts_of (columns_of w) c) }
    {
        if c == 0 {
            return;
        }
        self.push_one(w.last);
        self.push_run(w.any, c - w.singles());
        self.push_leading(w);
    }
}
