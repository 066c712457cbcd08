// What is asked of a number, and what is asked of the number that is kept for a code.

ghost use Rattle.std.specs.Prelude.{◌≡◌, ℤ, Bool, pos};
ghost use Rattle.ssb_packed.specs.Lent.{kept_code};

/// What is asked of a number.
pub trait Asks: Copy {
    ghost says: { Self → ℤ → Bool };

    /// Whether it passes.
    fn passes(self, number: i64) -> bool
        ensures { result ≡ says self number };
}

/// What is asked of a code, asked of the number that is kept for it.
#[derive(Clone, Copy)]
pub(crate) struct OfCode<A> {
    pub(crate) asked: A,
}

impl<A: Asks> Asks for OfCode<A> {
    ghost says = { λ a n. A.says a.asked (pos (kept_code n)) };

    fn passes(self, number: i64) -> bool {
        self.asked.passes(i64::from(kept_code(number)))
    }
}

// The code that a number is kept for.
fn kept_code(number: i64) -> u32
    ensures { result ≡ kept_code number }
{
    ((number.cast_unsigned() % 0x1_0000_0000) as u32).wrapping_add(128)
}
