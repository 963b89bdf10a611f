//! The list, which has no bytes.
ghost use Rattle.std.specs.Prelude.{◌≡◌, List, [], ◌∷◌, ◌++◌};
ghost use Rattle.std.specs.Borrow.{ftrue};

use std::marker::{Model, PhantomData};

/// Items as clauses see them, in order. It takes no memory and owns nothing, whatever its items are.
pub struct GhostList<T> {
    marker: PhantomData<T>,
    pub ghost items: { List T },
}

const _: () = prove!(size_of::<GhostList<u64>>() == 0);

impl<T> Model for GhostList<T> {
    ghost also_owns = { λ _. ftrue };
}

// A struct with `also_owns` has neither by itself. This one owns nothing.
unsafe impl<T> Send for GhostList<T> {}

unsafe impl<T> Sync for GhostList<T> {}

impl<T> Drop for GhostList<T> {
    fn drop(self) {
        let Self { marker: _ } = self;
    }
}

impl<T> GhostList<T> {
    /// The empty list.
    pub fn new() -> GhostList<T>
        ensures { result.items ≡ [] }
    {
        GhostList {
            marker: PhantomData,
        }
    }

    /// The list with one more item, at its end.
    fn with(&self, item: &T) -> GhostList<T>
        ensures { result.items ≡ self.now.items ++ item.now ∷ [] }
    {
        let _ = item;
        GhostList {
            marker: PhantomData,
        }
    }

    /// Puts an item at the end.
    pub fn push(&mut self, item: &T)
        ensures { self.new.items ≡ self.old.items ++ item.now ∷ [] }
    {
        *self = self.with(item);
    }
}
