// A text that is kept.

ghost use Rattle.std.specs.Prelude.{◌≡◌, IfOk, string_bytes};

use std::alloc::{AllocError, Global};
use std::marker::Model;

/// A text, seen as its bytes.
#[derive(Debug)]
pub struct Text {
    letters: String,
}

// Written out, so that the crates above need no proof of how it is let go.
impl Drop for Text {
    fn drop(self) {
        let Text { letters } = self;
        drop(letters);
    }
}

impl Model for Text {
    ghost use Rattle.std.specs.Prelude.{List, ℕ, string_bytes};

    ghost Value = { List ℕ };

    ghost view = { λ t. string_bytes t.letters };
}

impl Text {
    /// The text of these letters.
    pub fn new(letters: String) -> Text
        ensures { result ≡ string_bytes letters }
    {
        Text { letters }
    }

    /// A copy.
    pub fn copy(&self, alloc: Global) -> Result<Text, AllocError>
        ensures { IfOk result (λ t. t ≡ self.now) }
    {
        Ok(Text {
            letters: String::from_str(alloc, self.letters.as_str())?,
        })
    }

    /// The letters.
    pub fn as_str(&self) -> &str
        ensures { result.now ≡ self.now }
    {
        self.letters.as_str()
    }
}
