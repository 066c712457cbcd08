// Lists that grow: their last values wait in a block, which is narrowed all at once.

ghost use Rattle.std.specs.Prelude.{◌≡◌, ◌<◌, ◌-◌, [], ◌∷◌, ◌++◌, length, IfOk, OnOk, OnErr, take, vec_len, vec_capacity};

use crate::codes::{Codes, number_of};
use crate::numbers::Numbers;
use std::alloc::{AllocError, Global};
use std::marker::Model;

// How many numbers wait.
const BLOCK: usize = 256;

/// [`Numbers`] under construction, seen as the list of all that were pushed. The last of them wait in a
/// block of 256, and are narrowed at once.
pub struct NumbersBuilder {
    settled: Numbers,
    block: Vec<i64>,
}

// Written out, so that what lets go of one need not say how its parts are let go.
impl Drop for NumbersBuilder {
    fn drop(self) {
        let NumbersBuilder { settled, block } = self;
        drop(settled);
        drop(block);
    }
}

impl Model for NumbersBuilder {
    ghost use Rattle.std.specs.Prelude.{List, ℤ, ◌++◌};

    ghost Value = { List ℤ };

    ghost view = { λ b. b.settled ++ b.block.items };
}

// Empties the block, and has room in it.
#[cold]
#[inline(never)]
fn settle(settled: &mut Numbers, block: &mut Vec<i64>) -> Result<(), AllocError>
    ensures same { settled.new ++ block.new.items ≡ settled.old ++ block.old.items }
    ensures room { OnOk result (vec_len block.new < vec_capacity block.new) }
{
    settled.extend(block)?;
    block.clear();
    block.reserve_exact(BLOCK)
}

impl NumbersBuilder {
    /// No number. It takes no memory.
    pub fn new(alloc: Global) -> NumbersBuilder
        ensures { result ≡ [] }
    {
        NumbersBuilder {
            settled: Numbers::new(alloc),
            block: Vec::new(alloc),
        }
    }

    /// Adds a number at the end. An `Err` changes nothing.
    pub fn push(&mut self, number: i64) -> Result<(), AllocError>
        ensures ok { OnOk result (self.new ≡ self.old ++ number ∷ []) }
        ensures err { OnErr result (self.new ≡ self.old) }
    {
        if self.block.len() == self.block.capacity() {
            settle(&mut self.settled, &mut self.block)?;
        }
        self.block.push_reserved(number);
        Ok(())
    }

    /// Takes the last number away.
    pub fn pop(&mut self)
        requires { 0 < length self.old }
        ensures { self.new ≡ take (length self.old - 1) self.old }
    {
        if self.block.pop().is_none() {
            self.settled.pop();
        }
    }

    /// The numbers.
    pub fn into_numbers(self) -> Result<Numbers, AllocError>
        ensures { IfOk result (λ numbers. numbers ≡ self) }
    {
        let NumbersBuilder { settled, block } = self;
        let mut settled = settled;
        settled.extend(&block)?;
        drop(block);
        Ok(settled)
    }
}

/// [`Codes`] under construction, seen as the list of all that were pushed.
pub struct CodesBuilder {
    numbers: NumbersBuilder,
}

// Written out, so that what lets go of one need not say how its parts are let go.
impl Drop for CodesBuilder {
    fn drop(self) {
        let CodesBuilder { numbers } = self;
        drop(numbers);
    }
}

impl Model for CodesBuilder {
    ghost use Rattle.std.specs.Prelude.{List, ℕ, map};
    ghost use Rattle.ssb_packed.specs.Lent.{kept_code};

    ghost Value = { List ℕ };

    ghost view = { λ c. map kept_code c.numbers };
}

impl CodesBuilder {
    /// No code. It takes no memory.
    pub fn new(alloc: Global) -> CodesBuilder
        ensures { result ≡ [] }
    {
        CodesBuilder {
            numbers: NumbersBuilder::new(alloc),
        }
    }

    /// Adds a code at the end. An `Err` changes nothing.
    pub fn push(&mut self, code: u32) -> Result<(), AllocError>
        ensures ok { OnOk result (self.new ≡ self.old ++ code ∷ []) }
        ensures err { OnErr result (self.new ≡ self.old) }
    {
        self.numbers.push(number_of(code))
    }

    /// Takes the last code away.
    pub fn pop(&mut self)
        requires { 0 < length self.old }
        ensures { self.new ≡ take (length self.old - 1) self.old }
    {
        self.numbers.pop();
    }

    /// The codes.
    pub fn into_codes(self) -> Result<Codes, AllocError>
        ensures { IfOk result (λ codes. codes ≡ self) }
    {
        let CodesBuilder { numbers } = self;
        Ok(Codes {
            numbers: numbers.into_numbers()?,
        })
    }
}
