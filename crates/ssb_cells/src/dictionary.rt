// Different texts, and the place of each.

ghost use Rattle.std.specs.Prelude.{◌≡◌, ◌<◌, ◌+◌, ◌≤◌, [], length, position, is_some, IfOk, OnOk, OnErr, slice_get, Some, true};
ghost use Rattle.std.specs.List.{list_any, position_or_len};
ghost use Rattle.std.specs.Str.{bytes_eq};
ghost use Rattle.ssb_cells.specs.Cell.{text};
ghost use Rattle.ssb_cells.specs.Codes.{with_text};
ghost use Rattle.ssb_cells.specs.Joined.{Recodes, with_texts};

use indexmap::IndexSet;
use std::alloc::{AllocError, Global};
use std::marker::Model;

// How many marks there are.
const MARKS: usize = 32;

// Up to how many texts a guess is made: of more, most guesses would be wrong.
const MOST_GUESSED: usize = 2 * MARKS;

/// Different texts in the order in which they came, seen as their list. There may be 4,294,967,295.
pub struct Dictionary {
    alloc: Global,
    texts: IndexSet<String>,
    // For each mark of a text the place of one that had it: a guess, which is compared before it is believed.
    guesses: [u32; MARKS],
}

// Written out, so that what lets go of one need not say how a set does.
impl Drop for Dictionary {
    fn drop(self) {
        let Dictionary {
            alloc: _,
            texts,
            guesses: _,
        } = self;
        drop(texts);
    }
}

impl Model for Dictionary {
    ghost use Rattle.std.specs.Prelude.{List, ℕ};

    ghost Value = { List (List ℕ) };

    ghost use Rattle.ssb_cells.specs.Spelling.{spellings, AreTexts};

    ghost view = { spellings };

    ghost invariant = { AreTexts };
}

// A text's mark, by its first byte, its last and its length: those of few texts mostly differ.
fn mark_of(letters: &[u8]) -> usize
    ensures { result < 32 }
{
    let (Some(first), Some(last)) = (letters.first(), letters.last()) else {
        return 0;
    };
    (usize::from(*first) * 5 + usize::from(*last) * 3 + letters.len()) % MARKS
}

impl Dictionary {
    /// No text.
    pub fn new(alloc: Global) -> Dictionary
        ensures { result ≡ [] }
    {
        Dictionary {
            alloc,
            texts: IndexSet::new(alloc),
            guesses: [0; MARKS],
        }
    }

    /// How many texts there are.
    pub fn len(&self) -> u32
        ensures { result ≡ length self.now }
    {
        self.texts.len() as u32
    }

    /// The place of a text, if it is there.
    pub fn find(&self, letters: &str) -> Option<u32>
        ensures place { result ≡ position (bytes_eq letters.now) self.now }
        ensures found { is_some result ≡ list_any (bytes_eq letters.now) self.now }
    {
        match self.texts.get_index_of(letters) {
            Some(place) => Some(place as u32),
            None => None,
        }
    }

    // Whether the text at a place is this one.
    fn is_at(&self, place: u32, letters: &str) -> bool
        ensures { result ≡ true → slice_get self.now place ≡ Some letters.now }
    {
        place < self.len() && self.spelt(place) == letters
    }

    // The place of a text, if it is there: the guess for texts of this mark from now on.
    #[inline(never)]
    fn find_for_mark(&mut self, mark: usize, letters: &str) -> Option<u32>
        requires { mark < 32 }
        ensures same { self.new ≡ self.old }
        ensures place { result ≡ position (bytes_eq letters.now) self.old }
        ensures found { is_some result ≡ list_any (bytes_eq letters.now) self.old }
    {
        let found = self.find(letters);
        if let Some(place) = found {
            self.guesses[mark] = place;
        }
        found
    }

    /// [`find`](Self::find), quicker where few different texts are looked for over and over.
    #[inline(always)]
    pub fn find_again(&mut self, letters: &str) -> Option<u32>
        ensures same { self.new ≡ self.old }
        ensures place { result ≡ position (bytes_eq letters.now) self.old }
        ensures found { is_some result ≡ list_any (bytes_eq letters.now) self.old }
    {
        if self.texts.len() > MOST_GUESSED {
            return self.find(letters);
        }
        let mark = mark_of(letters.as_bytes());
        let guess = self.guesses[mark];
        if self.is_at(guess, letters) {
            return Some(guess);
        }
        self.find_for_mark(mark, letters)
    }

    /// The text at a place.
    pub fn spelt(&self, place: u32) -> &str
        requires { place < length self.now }
        ensures { slice_get self.now place ≡ Some result.now }
    {
        let Some(text) = self.texts.get_index(place as usize) else {
            unreachable!()
        };
        text.as_str()
    }

    /// Puts a text behind the others, where it is not among them. An `Err` changes nothing.
    pub fn add(&mut self, letters: &str) -> Result<(), AllocError>
        requires { length self.old < 4294967295 }
        ensures ok { OnOk result (self.new ≡ with_text self.old (text letters.now)) }
        ensures err { OnErr result (self.new ≡ self.old) }
    {
        let text = String::from_str(self.alloc, letters)?;
        self.texts.insert(text)?;
        Ok(())
    }

    // The place of a text, which is put behind the others where it is not among them.
    fn place_of(&mut self, letters: &str) -> Result<u32, AllocError>
        requires { length self.old < 4294967295 }
        ensures texts { OnOk result (self.new ≡ with_text self.old (text letters.now)) }
        ensures place { IfOk result (λ place. place ≡ position_or_len (bytes_eq letters.now) self.old) }
    {
        if let Some(place) = self.find(letters) {
            return Ok(place);
        }
        let place = self.len();
        self.add(letters)?;
        Ok(place)
    }

    /// Puts the texts of another dictionary behind the others, each where it is not among them, and gives
    /// the place here of each. An `Err` leaves some of them added.
    pub fn add_all(&mut self, other: &Dictionary) -> Result<Vec<u32>, AllocError>
        requires { length self.old + length other.now ≤ 4294967295 }
        ensures texts { OnOk result (self.new ≡ with_texts self.old other.now) }
        ensures places { IfOk result (λ places. Recodes places.items other.now self.new) }
    {
        let mut places = Vec::with_capacity(self.alloc, other.len() as usize)?;
        for place in 0..other.len() {
            places.push(self.place_of(other.spelt(place))?)?;
        }
        Ok(places)
    }
}
