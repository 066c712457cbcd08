// A path as a line shows it.

ghost use Rattle.std.specs.Prelude.{◌≡◌, ◌++◌, IfOk, OnOk, string_bytes, encode_utf8_all};
ghost use Rattle.ssb_files.specs.Shown.{shown_char, shown_path};

use std::alloc::{AllocError, Global};

// Puts a character behind a text, escaped where it is a control character.
fn push_shown(text: &mut String, character: char) -> Result<(), AllocError>
    ensures { OnOk result (string_bytes text.new ≡ string_bytes text.old ++ encode_utf8_all (shown_char character)) }
{
    if !character.is_control() {
        return text.push(character);
    }
    for mark in character.escape_default() {
        text.push(mark)?;
    }
    Ok(())
}

/// A path with its control characters escaped, so that it stays on one line.
pub fn shown_path(alloc: Global, path: &str) -> Result<String, AllocError>
    ensures { IfOk result (λ text. string_bytes text ≡ shown_path path.now) }
{
    let mut text = String::new(alloc);
    for character in path.chars() {
        push_shown(&mut text, character)?;
    }
    Ok(text)
}
