// Names of tables and columns.

ghost use Rattle.std.specs.Prelude.{◌≡◌, true, IfOk, List, ℕ, ◌&&◌};
ghost use Rattle.std.specs.List.{list_all};
ghost use Rattle.std.specs.Str.{str_to_ascii_lowercase};
ghost use Rattle.ssb_terms.specs.Names.{IsLowerName, is_name, is_reserved, is_word, is_word_byte};

use crate::keyword::keyword_of;
use crate::text::Text;
use std::alloc::{AllocError, Global};
use std::marker::Model;

/// A name in lower case, and no reserved word, seen as its bytes.
#[derive(Debug)]
pub struct Name {
    letters: Text,
}

// Written out, so that the crates above need no proof of how it is let go.
impl Drop for Name {
    fn drop(self) {
        let Name { letters } = self;
        drop(letters);
    }
}

impl Model for Name {
    ghost use Rattle.std.specs.Prelude.{List, ℕ};

    ghost Value = { List ℕ };

    ghost use Rattle.ssb_terms.specs.Names.{IsLowerName};

    ghost view = { λ n. n.letters };

    ghost invariant = { λ n. IsLowerName n.letters };
}

impl Name {
    /// The name that a text spells, with its letters in lower case: names are the same whatever the
    /// case of their letters.
    pub fn new(alloc: Global, text: &[u8]) -> Result<Name, AllocError>
        requires { is_name text.now ≡ true }
        ensures { IfOk result (λ n. n ≡ str_to_ascii_lowercase text.now) }
    {
        let Ok(text) = str::from_utf8(text) else {
            unreachable!()
        };
        let mut letters = String::from_str(alloc, text)?;
        letters.make_ascii_lowercase();
        Ok(Name {
            letters: Text::new(letters),
        })
    }

    /// A copy.
    pub fn copy(&self, alloc: Global) -> Result<Name, AllocError>
        ensures { IfOk result (λ n. n ≡ self.now) }
    {
        Ok(Name {
            letters: self.letters.copy(alloc)?,
        })
    }

    /// The letters: a name, in lower case.
    pub fn as_str(&self) -> &str
        ensures letters { result.now ≡ self.now }
        ensures lower { IsLowerName self.now }
    {
        self.letters.as_str()
    }
}

/// Whether a byte may stand in a word behind its first letter: a letter, a digit or `_`.
pub fn is_word_byte(byte: u8) -> bool
    ensures { result ≡ is_word_byte byte }
{
    byte.is_ascii_alphanumeric() || byte == b'_'
}

fn are_word_bytes(bytes: &[u8]) -> bool
    ensures { result ≡ list_all is_word_byte bytes.now }
{
    bytes.iter().all(|byte| is_word_byte(*byte))
}

// Whether a text is a letter and then letters, digits and `_`.
fn is_word(text: &[u8]) -> bool
    ensures { result ≡ is_word text.now }
{
    match text.split_first() {
        Some((first, rest)) => first.is_ascii_alphabetic() && are_word_bytes(rest),
        None => false,
    }
}

/// Whether a word is reserved, whatever the case of its letters.
pub fn is_reserved(word: &[u8]) -> bool
    ensures { result ≡ is_reserved word.now }
{
    keyword_of(word).is_some()
}

/// Whether a text is a name: a letter, then letters, digits and `_`, and no reserved word.
pub fn is_name(text: &[u8]) -> bool
    ensures { result ≡ is_name text.now }
{
    is_word(text) && !is_reserved(text)
}
