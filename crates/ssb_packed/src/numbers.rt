// Whole numbers in as few bytes as the widest of them needs.

ghost use Rattle.std.specs.Prelude.{◌≡◌, ◌<◌, ◌≤ℤ◌, ◌-◌, ℤ, All, List, [], ◌∷◌, ◌++◌, length, true, take, if◌then◌else◌, IfOk, OnOk, OnErr, slice_get, Some};
ghost use Rattle.ssb_packed.specs.Lent.{numbers_in};
ghost use Rattle.ssb_packed.specs.Narrow.{Fits, left, numbers_of};

use crate::lent::NumberSlice;
use crate::width::Width;
use std::alloc::{AllocError, Global};
use std::marker::Model;

// The numbers, each in so many bytes.
#[derive(Drop)]
pub(crate) enum Kept {
    One(Vec<i8>),
    Two(Vec<i16>),
    Four(Vec<i32>),
    Eight(Vec<i64>),
}

/// A list of numbers of 64 bits, seen as that list. Each takes 1, 2, 4 or 8 bytes, the least that hold
/// all of them.
#[derive(Drop)]
pub struct Numbers {
    alloc: Global,
    kept: Kept,
}

impl Model for Numbers {
    ghost use Rattle.std.specs.Prelude.{List, ℤ};

    ghost Value = { List ℤ };

    ghost use Rattle.ssb_packed.specs.Narrow.{listed};

    ghost view = { listed };
}

// The same numbers, each in the next more bytes.
fn widened(alloc: Global, kept: &Kept) -> Result<Kept, AllocError>
    requires { 0 < left kept.now }
    ensures same { IfOk result (λ k. numbers_of k ≡ numbers_of kept.now) }
    ensures less { IfOk result (λ k. left k < left kept.now) }
{
    match kept {
        Kept::One(numbers) => {
            let wider = numbers.iter().map(|number| i16::from(*number));
            Ok(Kept::Two(wider.collect(alloc)?))
        }
        Kept::Two(numbers) => {
            let wider = numbers.iter().map(|number| i32::from(*number));
            Ok(Kept::Four(wider.collect(alloc)?))
        }
        Kept::Four(numbers) => {
            let wider = numbers.iter().map(|number| i64::from(*number));
            Ok(Kept::Eight(wider.collect(alloc)?))
        }
        Kept::Eight(_) => unreachable!(),
    }
}

// Adds a number, if it fits.
fn try_add(kept: &mut Kept, number: i64) -> Result<bool, AllocError>
    ensures ok { IfOk result (λ added. numbers_of kept.new ≡ (if added then numbers_of kept.old ++ number ∷ [] else numbers_of kept.old)) }
    ensures err { OnErr result (numbers_of kept.new ≡ numbers_of kept.old) }
    ensures left { left kept.new ≡ left kept.old }
    ensures widest { IfOk result (λ added. left kept.old ≡ 0 → added ≡ true) }
{
    match kept {
        Kept::One(numbers) => {
            let Ok(number) = i8::try_from(number) else {
                return Ok(false);
            };
            numbers.push(number)?;
        }
        Kept::Two(numbers) => {
            let Ok(number) = i16::try_from(number) else {
                return Ok(false);
            };
            numbers.push(number)?;
        }
        Kept::Four(numbers) => {
            let Ok(number) = i32::try_from(number) else {
                return Ok(false);
            };
            numbers.push(number)?;
        }
        Kept::Eight(numbers) => numbers.push(number)?,
    }
    Ok(true)
}

// No number yet, in this width, with memory for so many.
fn with_room(alloc: Global, width: Width, room: usize) -> Result<Kept, AllocError>
    ensures { IfOk result (λ k. numbers_of k ≡ []) }
{
    match width {
        Width::One => Ok(Kept::One(Vec::with_capacity(alloc, room)?)),
        Width::Two => Ok(Kept::Two(Vec::with_capacity(alloc, room)?)),
        Width::Four => Ok(Kept::Four(Vec::with_capacity(alloc, room)?)),
        Width::Eight => Ok(Kept::Eight(Vec::with_capacity(alloc, room)?)),
    }
}

// Asks for memory for so many more.
fn make_room(kept: &mut Kept, additional: usize) -> Result<(), AllocError>
    ensures { numbers_of kept.new ≡ numbers_of kept.old }
{
    match kept {
        Kept::One(numbers) => numbers.reserve_exact(additional),
        Kept::Two(numbers) => numbers.reserve_exact(additional),
        Kept::Four(numbers) => numbers.reserve_exact(additional),
        Kept::Eight(numbers) => numbers.reserve_exact(additional),
    }
}

// The least and the greatest of these numbers and 0.
fn bounds(numbers: &[i64]) -> (i64, i64)
    ensures { All (λ n. (result.0 ≤ℤ n) × (n ≤ℤ result.1)) numbers.now }
{
    let mut least = 0;
    let mut greatest = 0;
    for number in numbers {
        least = least.min(*number);
        greatest = greatest.max(*number);
    }
    (least, greatest)
}

// Whether numbers from the one to the other fit.
fn holds(kept: &Kept, least: i64, greatest: i64) -> bool
    ensures fits { result ≡ true → (n : ℤ) → least ≤ℤ n → n ≤ℤ greatest → Fits kept.now n }
    ensures widest { left kept.now ≡ 0 → result ≡ true }
{
    match kept {
        Kept::One(_) => -128 <= least && greatest < 128,
        Kept::Two(_) => -32_768 <= least && greatest < 32_768,
        Kept::Four(_) => -2_147_483_648 <= least && greatest < 2_147_483_648,
        Kept::Eight(_) => true,
    }
}

// Adds numbers that fit. An `Err` changes nothing.
fn add_all(kept: &mut Kept, block: &[i64]) -> Result<(), AllocError>
    requires { All (Fits kept.old) block.now }
    ensures ok { OnOk result (numbers_of kept.new ≡ numbers_of kept.old ++ block.now) }
    ensures err { OnErr result (numbers_of kept.new ≡ numbers_of kept.old) }
{
    match kept {
        Kept::One(numbers) => {
            let before = numbers.len();
            numbers.resize(before + block.len(), 0)?;
            let (_, room) = numbers.split_at_mut(before);
            for k in 0..block.len() {
                room[k] = block[k] as i8;
            }
        }
        Kept::Two(numbers) => {
            let before = numbers.len();
            numbers.resize(before + block.len(), 0)?;
            let (_, room) = numbers.split_at_mut(before);
            for k in 0..block.len() {
                room[k] = block[k] as i16;
            }
        }
        Kept::Four(numbers) => {
            let before = numbers.len();
            numbers.resize(before + block.len(), 0)?;
            let (_, room) = numbers.split_at_mut(before);
            for k in 0..block.len() {
                room[k] = block[k] as i32;
            }
        }
        Kept::Eight(numbers) => numbers.extend_from_slice(block)?,
    }
    Ok(())
}

// Adds numbers of the same width, all in one copy, and none of another.
fn add_alike(kept: &mut Kept, numbers: NumberSlice<'_>) -> Result<bool, AllocError>
    ensures { IfOk result (λ added. numbers_of kept.new ≡ (if added then numbers_of kept.old ++ numbers_in numbers.entry else numbers_of kept.old)) }
{
    match (kept, numbers) {
        (Kept::One(to), NumberSlice::One(from)) => to.extend_from_slice(from)?,
        (Kept::Two(to), NumberSlice::Two(from)) => to.extend_from_slice(from)?,
        (Kept::Four(to), NumberSlice::Four(from)) => to.extend_from_slice(from)?,
        (Kept::Eight(to), NumberSlice::Eight(from)) => to.extend_from_slice(from)?,
        _ => return Ok(false),
    }
    Ok(true)
}

impl Numbers {
    /// No number.
    pub fn new(alloc: Global) -> Numbers
        ensures { result ≡ [] }
    {
        Numbers {
            alloc,
            kept: Kept::One(Vec::new(alloc)),
        }
    }

    // Where its memory comes from.
    pub(crate) fn alloc(&self) -> Global {
        self.alloc
    }

    /// How many numbers there are.
    pub fn len(&self) -> usize
        ensures { result ≡ length self.now }
    {
        match &self.kept {
            Kept::One(numbers) => numbers.len(),
            Kept::Two(numbers) => numbers.len(),
            Kept::Four(numbers) => numbers.len(),
            Kept::Eight(numbers) => numbers.len(),
        }
    }

    /// Adds a number at the end, and widens all where it asks for more bytes. An `Err` changes nothing.
    pub fn push(&mut self, number: i64) -> Result<(), AllocError>
        ensures ok { OnOk result (self.new ≡ self.old ++ number ∷ []) }
        ensures err { OnErr result (self.new ≡ self.old) }
    {
        while !try_add(&mut self.kept, number)? {
            self.kept = widened(self.alloc, &self.kept)?;
        }
        Ok(())
    }

    /// Adds numbers at the end, and widens all, once, where one of these asks for more bytes. An `Err`
    /// changes nothing.
    pub fn extend(&mut self, numbers: &[i64]) -> Result<(), AllocError>
        ensures ok { OnOk result (self.new ≡ self.old ++ numbers.now) }
        ensures err { OnErr result (self.new ≡ self.old) }
    {
        let (least, greatest) = bounds(numbers);
        while !holds(&self.kept, least, greatest) {
            self.kept = widened(self.alloc, &self.kept)?;
        }
        add_all(&mut self.kept, numbers)
    }

    /// Takes the last number away.
    pub fn pop(&mut self)
        requires { 0 < length self.old }
        ensures { self.new ≡ take (length self.old - 1) self.old }
    {
        match &mut self.kept {
            Kept::One(numbers) => numbers.truncate(numbers.len() - 1),
            Kept::Two(numbers) => numbers.truncate(numbers.len() - 1),
            Kept::Four(numbers) => numbers.truncate(numbers.len() - 1),
            Kept::Eight(numbers) => numbers.truncate(numbers.len() - 1),
        }
    }

    /// In how many bytes each is kept.
    pub fn width(&self) -> Width {
        match self.kept {
            Kept::One(_) => Width::One,
            Kept::Two(_) => Width::Two,
            Kept::Four(_) => Width::Four,
            Kept::Eight(_) => Width::Eight,
        }
    }

    /// Asks for memory for so many more numbers, each in this width at least. The numbers stay.
    pub fn reserve(&mut self, width: Width, additional: usize) -> Result<(), AllocError>
        ensures { self.new ≡ self.old }
    {
        if width <= self.width() {
            return make_room(&mut self.kept, additional);
        }
        let room = self.len().saturating_add(additional);
        let mut wider = Numbers {
            alloc: self.alloc,
            kept: with_room(self.alloc, width, room)?,
        };
        wider.append(self)?;
        self.kept = wider.kept;
        Ok(())
    }

    /// Adds all numbers of another list at the end. An `Err` leaves the first of them added.
    pub fn append(&mut self, other: &Numbers) -> Result<(), AllocError>
        ensures { OnOk result (self.new ≡ self.old ++ other.now) }
    {
        if !add_alike(&mut self.kept, other.as_slice())? {
            for i in 0..other.len() {
                self.push(other.get(i))?;
            }
        }
        Ok(())
    }

    /// The numbers.
    pub fn as_slice(&self) -> NumberSlice<'_>
        ensures { numbers_in result ≡ self.now }
    {
        match &self.kept {
            Kept::One(numbers) => NumberSlice::One(numbers.as_slice()),
            Kept::Two(numbers) => NumberSlice::Two(numbers.as_slice()),
            Kept::Four(numbers) => NumberSlice::Four(numbers.as_slice()),
            Kept::Eight(numbers) => NumberSlice::Eight(numbers.as_slice()),
        }
    }

    /// The number at a place.
    pub fn get(&self, i: usize) -> i64
        requires { i < length self.now }
        ensures { slice_get self.now i ≡ Some result }
    {
        self.as_slice().get(i)
    }
}
