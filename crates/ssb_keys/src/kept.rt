// What stands for a value of a column.

/// What stands for a value of a column. A text is kept as its code, and read only where it is compared or
/// answered.
#[derive(Clone, Copy, PartialEq, Eq, Hash)]
pub enum Kept {
    /// No value.
    Null,
    /// A number.
    Number(i64),
    /// A text, by its code in its column.
    Code(u32),
}
