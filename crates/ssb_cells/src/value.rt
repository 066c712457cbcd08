// Values, lent.

ghost use Rattle.std.specs.Prelude.{◌≡◌};

/// One value, lent.
#[derive(Clone, Copy)]
pub enum Value<'a> {
    /// No value.
    Null,
    /// A number.
    Int(i64),
    /// A text.
    Text(&'a str),
}

impl<'a> Value<'a> {
    ghost use Rattle.ssb_cells.specs.Values.{is_null_value};

    /// Whether there is no value.
    pub fn is_null(self) -> bool
        ensures { result ≡ is_null_value self.entry }
    {
        match self {
            Value::Null => true,
            _ => false,
        }
    }
}
