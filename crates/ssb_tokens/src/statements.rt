// Where a text of many statements is cut.

ghost use Rattle.ssb_tokens.specs.StatementLaws.{CutsAtSemicolons};

/// Of a text that is a list of tokens, the statements are cut at its `;` tokens.
pub fn cuts_at_semicolons()
    ensures { CutsAtSemicolons }
{}
