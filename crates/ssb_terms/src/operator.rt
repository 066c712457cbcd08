// The operators of conditions and of chains.

/// A comparison of SQL.
#[derive(Clone, Copy, PartialEq, Eq, Debug)]
pub enum Op {
    /// `=`
    Eq,
    /// `<>`
    Ne,
    /// `<`
    Lt,
    /// `<=`
    Le,
    /// `>`
    Gt,
    /// `>=`
    Ge,
}

/// How a chain of terms goes on.
#[derive(Clone, Copy, PartialEq, Eq, Debug)]
pub enum Adding {
    /// `+`
    Plus,
    /// `-`
    Minus,
}
