// The form of an expression, which says where it may stand without parentheses.

ghost use Rattle.std.specs.Prelude.{◌≡◌};
ghost use Rattle.ssb_spelling.specs.Titles as spec;

/// What an expression's spelling is (SQL-92, 6.12).
#[derive(Clone, Copy)]
pub enum Form {
    /// A column or a number.
    Primary,
    /// A primary behind a sign.
    Factor,
    /// A product of factors.
    Term,
    /// A chain of terms.
    Chain,
}

impl Form {
    // Whether it may stand below a sign.
    pub(crate) fn is_primary(self) -> bool
        ensures { result ≡ spec.is_primary self }
    {
        matches!(self, Form::Primary)
    }

    // Whether it may stand in a product.
    pub(crate) fn is_factor(self) -> bool
        ensures { result ≡ spec.is_factor self }
    {
        matches!(self, Form::Primary | Form::Factor)
    }

    // Whether it may stand in a chain.
    pub(crate) fn is_term(self) -> bool
        ensures { result ≡ spec.is_term self }
    {
        !matches!(self, Form::Chain)
    }
}
