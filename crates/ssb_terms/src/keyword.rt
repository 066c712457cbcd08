// The reserved words.

ghost use Rattle.std.specs.Prelude.{◌≡◌};
ghost use Rattle.std.specs.Option.{option_copied};
ghost use Rattle.std.specs.List.{find};
ghost use Rattle.std.specs.Str.{str_eq_ignore_ascii_case};
ghost use Rattle.ssb_terms.specs.Keywords.{keyword_of, spelling};

/// A reserved word.
#[derive(Clone, Copy, PartialEq, Eq, Debug)]
pub enum Keyword {
    /// `select`
    Select,
    /// `from`
    From,
    /// `where`
    Where,
    /// `group`
    Group,
    /// `by`
    By,
    /// `order`
    Order,
    /// `and`
    And,
    /// `or`
    Or,
    /// `not`
    Not,
    /// `between`
    Between,
    /// `in`
    In,
    /// `is`
    Is,
    /// `null`
    Null,
    /// `as`
    As,
    /// `asc`
    Asc,
    /// `desc`
    Desc,
    /// `sum`
    Sum,
    /// `count`
    Count,
    /// `min`
    Min,
    /// `max`
    Max,
    /// `having`
    Having,
}

const KEYWORDS: [Keyword; 21] = [
    Keyword::Select,
    Keyword::From,
    Keyword::Where,
    Keyword::Group,
    Keyword::By,
    Keyword::Order,
    Keyword::And,
    Keyword::Or,
    Keyword::Not,
    Keyword::Between,
    Keyword::In,
    Keyword::Is,
    Keyword::Null,
    Keyword::As,
    Keyword::Asc,
    Keyword::Desc,
    Keyword::Sum,
    Keyword::Count,
    Keyword::Min,
    Keyword::Max,
    Keyword::Having,
];

/// Its letters, in lower case.
pub fn spelling(keyword: Keyword) -> &'static str
    ensures { result.now ≡ spelling keyword }
{
    match keyword {
        Keyword::Select => "select",
        Keyword::From => "from",
        Keyword::Where => "where",
        Keyword::Group => "group",
        Keyword::By => "by",
        Keyword::Order => "order",
        Keyword::And => "and",
        Keyword::Or => "or",
        Keyword::Not => "not",
        Keyword::Between => "between",
        Keyword::In => "in",
        Keyword::Is => "is",
        Keyword::Null => "null",
        Keyword::As => "as",
        Keyword::Asc => "asc",
        Keyword::Desc => "desc",
        Keyword::Sum => "sum",
        Keyword::Count => "count",
        Keyword::Min => "min",
        Keyword::Max => "max",
        Keyword::Having => "having",
    }
}

fn is_spelled(word: &[u8], keyword: Keyword) -> bool
    ensures { result ≡ str_eq_ignore_ascii_case word.now (spelling keyword) }
{
    word.eq_ignore_ascii_case(spelling(keyword).as_bytes())
}

fn spelled_among(word: &[u8], keywords: &[Keyword]) -> Option<Keyword>
    ensures { result ≡ find (λ k. str_eq_ignore_ascii_case word.now (spelling k)) keywords.now }
{
    keywords
        .iter()
        .copied()
        .find(|keyword| is_spelled(word, *keyword))
}

/// The reserved word that these letters are, whatever their case.
#[tactic(auto, unfolding(crate::specs::Keywords::keyword_of))]
pub fn keyword_of(word: &[u8]) -> Option<Keyword>
    ensures { result ≡ keyword_of word.now }
{
    spelled_among(word, &KEYWORDS)
}
