// What a query text is made of.

use ssb_terms::{Keyword, Name, Text};

/// A mark.
#[derive(Clone, Copy, PartialEq, Eq)]
pub enum Mark {
    /// `(`
    Open,
    /// `)`
    Close,
    /// `,`
    Comma,
    /// `.`
    Dot,
    /// `;`
    Semicolon,
    /// `+`
    Plus,
    /// `-`
    Minus,
    /// `*`
    Times,
    /// `=`
    Equal,
    /// `<>`
    NotEqual,
    /// `<`
    Less,
    /// `<=`
    LessEqual,
    /// `>`
    Greater,
    /// `>=`
    GreaterEqual,
}

/// A reserved word or a mark.
#[derive(Clone, Copy, PartialEq, Eq)]
pub enum Sign {
    /// A reserved word.
    Word(Keyword),
    /// A mark.
    Mark(Mark),
}

/// A token of a query text.
#[derive(Drop)]
pub enum Token {
    /// A reserved word or a mark.
    Fixed(Sign),
    /// A word that is not reserved.
    Name(Name),
    /// A number, at most 9,223,372,036,854,775,807.
    Number(u64),
    /// A text literal, without its quotes.
    Text(Text),
}
