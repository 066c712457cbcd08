// A history that only proofs read.

ghost use Rattle.std.specs.Prelude.{◌≡◌, List, [], ◌∷◌, ◌++◌};
ghost use Rattle.std.specs.Borrow.{ftrue};

use std::marker::{Model, PhantomData};

/// A list of values that clauses read as `items`. It has no bytes, and its methods do nothing at
/// run time.
#[derive(Drop)]
pub struct History<A> {
    of: PhantomData<A>,
    pub ghost items: { List A },
}

impl<A> Model for History<A> {
    ghost also_owns = { λ _. ftrue };
}

// It owns nothing.
unsafe impl<A: Send> Send for History<A> {}

impl<A> History<A> {
    // The history that its caller's proof names, by what it passes. It has no bytes, so the code is the
    // same for each.
    fn told_by<T, U>(_first: &T, _second: &U) -> History<A>
        ghost told: { List A }
        ensures { result.items ≡ told }
    {
        History { of: PhantomData }
    }

    /// The history of nothing.
    pub fn new() -> History<A>
        ensures { result.items ≡ [] }
    {
        History::told_by(&(), &())
    }

    /// The history that has one value more at its end.
    pub fn and(&self, item: &A) -> History<A>
        ensures { result.items ≡ self.now.items ++ item.now ∷ [] }
    {
        History::told_by(self, item)
    }
}

impl History<u8> {
    /// The history that has some bytes more at its end.
    pub fn and_all(self, bytes: &[u8]) -> History<u8>
        ensures { result.items ≡ self.items ++ bytes.now }
    {
        let mut noted = self;
        for byte in bytes {
            noted = noted.and(byte);
        }
        noted
    }
}
