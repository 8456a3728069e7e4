// Making a list, reading it, and changing it.
ghost use Rattle.std.specs.Prelude.{◌≡◌, ◌+◌, ◌<◌, ◌≤◌, Bool, [], ◌∷◌, ◌++◌, length, filter};
ghost use Rattle.std.specs.Fn.{FnReturnsAt};
ghost use Rattle.bounded.specs.Items.{items};

use crate::list_type::Bounded;

impl<T: Copy, const N: usize> Bounded<T, N> {
    // A list without items; the blank fills its cells, and is never read.
    pub fn new(blank: T) -> Self
        ensures { items result ≡ [] }
    {
        Bounded {
            cells: [blank; N],
            count: 0,
        }
    }

    pub fn as_slice(&self) -> &[T]
        ensures { result.now ≡ items self.now }
    {
        &self.cells[..self.count]
    }

    // One item more, behind the others.
    pub fn push(&mut self, item: T)
        requires { length (items self.old) < N }
        ensures { items self.new ≡ items self.old ++ item ∷ [] }
    {
        self.cells[self.count] = item;
        self.count += 1;
    }

    // All these items more, behind the others.
    pub fn extend_from_slice(&mut self, more: &[T])
        requires { length (items self.old) + length more.now ≤ N }
        ensures { items self.new ≡ items self.old ++ more.now }
    {
        let end = self.count + more.len();
        let cells = &mut self.cells[..];
        cells[self.count..end].copy_from_slice(more);
        self.count = end;
    }

    // Keeps the items of which the closure says yes, in their order.
    pub fn retain<F: Fn(&T) -> bool>(&mut self, keep: F)
        requires { F.IsAlwaysCallable keep }
        ensures { (test : T → Bool) → ((x : T) (b : Bool) → FnReturnsAt F.Fn keep x b → b ≡ test x) → items self.new ≡ filter test (items self.old) }
    {
        let mut kept = 0;
        // By its place, since what is kept moves up in the same cells: no list is copied.
        for i in 0..self.count {
            let item = self.cells[i];
            if keep(&item) {
                self.cells[kept] = item;
                kept += 1;
            }
        }
        self.count = kept;
    }
}
