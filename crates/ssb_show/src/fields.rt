// The fields of a line.

ghost use Rattle.std.specs.Prelude.{◌≡◌, ◌+◌, drop, length, map, slice_get, string_bytes};
ghost use Rattle.std.specs.List.{list_any};
ghost use Rattle.std.specs.Option.{option_map};
ghost use Rattle.ssb_show.specs.Columns as spec;
ghost use Rattle.ssb_show.specs.Pieces.{field_of, letters_at, line_of};

use crate::piece::{Piece, piece_of};
use ssb_rows::AnswerRow;

/// The fields of a line.
#[derive(Drop)]
pub enum Fields<'a> {
    /// The titles of the columns.
    Titles(&'a [String]),
    /// Dashes across columns of these widths.
    Rule(&'a [usize]),
    /// A row.
    Row(AnswerRow<'a>),
}

fn title_at(titles: &[String], place: usize) -> Option<Piece<'_>>
    ensures { option_map field_of result ≡ slice_get (map (λ t. spec.left_field (string_bytes t)) titles.now) place }
{
    match titles.get(place) {
        Some(title) => Some(Piece::Text(title.as_str())),
        None => None,
    }
}

fn rule_at<'a>(widths: &'a [usize], place: usize) -> Option<Piece<'a>>
    ensures { option_map field_of result ≡ slice_get (map spec.rule_field widths.now) place }
{
    match widths.get(place) {
        Some(width) => Some(Piece::Rule(*width)),
        None => None,
    }
}

fn value_at<'a>(row: &AnswerRow<'a>, place: usize) -> Option<Piece<'a>>
    ensures { option_map field_of result ≡ slice_get (map spec.value_field row.now) place }
{
    match row.value(place) {
        Some(value) => Some(piece_of(value)),
        None => None,
    }
}

impl<'a> Fields<'a> {
    // How many there are.
    pub(crate) fn len(&self) -> usize
        ensures { result ≡ length (line_of self.now) }
    {
        match self {
            Fields::Titles(titles) => titles.len(),
            Fields::Rule(widths) => widths.len(),
            Fields::Row(row) => row.len(),
        }
    }

    // The one at a place, from 0.
    pub(crate) fn get(&self, place: usize) -> Option<Piece<'a>>
        ensures { option_map field_of result ≡ slice_get (line_of self.now) place }
    {
        match self {
            Fields::Titles(titles) => title_at(titles, place),
            Fields::Rule(widths) => rule_at(widths, place),
            Fields::Row(row) => value_at(row, place),
        }
    }

    // How wide it is at a place.
    pub(crate) fn width_at(&self, place: usize) -> usize
        ensures { result ≡ spec.width_at place (line_of self.now) }
    {
        match self.get(place) {
            Some(piece) => piece.width(),
            None => 0,
        }
    }

    fn has_letters_at(&self, place: usize) -> bool
        ensures { result ≡ letters_at (slice_get (line_of self.now) place) }
    {
        match self.get(place) {
            Some(piece) => piece.has_letters(),
            None => false,
        }
    }

    // Whether a field behind a place shows anything.
    pub(crate) fn has_letters_behind(&self, place: usize) -> bool
        ensures { result ≡ list_any spec.has_letters (drop (place + 1) (line_of self.now)) }
    {
        let len = self.len();
        if place >= len {
            return false;
        }
        for at in place + 1..len {
            if self.has_letters_at(at) {
                return true;
            }
        }
        false
    }
}
