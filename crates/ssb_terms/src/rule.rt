// What a column takes.

ghost use Rattle.std.specs.Prelude.{◌≡◌};
ghost use Rattle.ssb_terms.specs.Roles.{is_key, needs_value};

/// The type of a column.
#[derive(Clone, Copy, PartialEq, Eq, Debug)]
pub enum ColType {
    /// Whole numbers of 64 bits.
    Int,
    /// Texts.
    Text,
}

/// Which fields a column takes.
#[derive(Clone, Copy, PartialEq, Eq, Debug)]
pub enum Role {
    /// Not null, and all values different.
    Key,
    /// Not null.
    Need,
    /// Perhaps null.
    Nullable,
}

impl Role {
    /// Whether the column is its table's key.
    pub fn is_key(self) -> bool
        ensures { result ≡ is_key self }
    {
        match self {
            Role::Key => true,
            Role::Need => false,
            Role::Nullable => false,
        }
    }

    /// Whether the column has no null.
    pub fn needs_value(self) -> bool
        ensures { result ≡ needs_value self }
    {
        match self {
            Role::Key => true,
            Role::Need => true,
            Role::Nullable => false,
        }
    }
}

/// The type and the role of a column.
#[derive(Clone, Copy, PartialEq, Eq, Debug)]
pub struct Rule {
    /// The type.
    pub kind: ColType,
    /// The role.
    pub role: Role,
}
