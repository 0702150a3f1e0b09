// The words with a meaning of their own.
ghost use Rattle.std.specs.Prelude.{◌≡◌, map};
ghost use Rattle.std.specs.Str.{str_eq_ignore_ascii_case};
ghost use Rattle.script_words.specs.Keywords.{find_keyword, keyword_of};

/// A word with a meaning of its own, which is a name only between backquotes.
#[derive(Clone, Copy, Debug, PartialEq, Eq)]
pub enum Keyword {
    Source,
    From,
    Session,
    Schedule,
    Boolean,
    Int,
    Bigint,
    Date,
    Timestamp,
    Decimal,
    String,
    Binary,
    Insert,
    Into,
    Values,
    Delete,
    Where,
    Update,
    Set,
    Merge,
    Using,
    On,
    Alter,
    Table,
    Create,
    Drop,
    Branch,
    Select,
    When,
    Matched,
    And,
    Then,
    Not,
    By,
    Target,
    Or,
    True,
    False,
    Is,
    Null,
    In,
    Between,
    X,
}

const KEYWORDS: [(&[u8], Keyword); 43] = [
    (b"SOURCE", Keyword::Source),
    (b"FROM", Keyword::From),
    (b"SESSION", Keyword::Session),
    (b"SCHEDULE", Keyword::Schedule),
    (b"BOOLEAN", Keyword::Boolean),
    (b"INT", Keyword::Int),
    (b"BIGINT", Keyword::Bigint),
    (b"DATE", Keyword::Date),
    (b"TIMESTAMP", Keyword::Timestamp),
    (b"DECIMAL", Keyword::Decimal),
    (b"STRING", Keyword::String),
    (b"BINARY", Keyword::Binary),
    (b"INSERT", Keyword::Insert),
    (b"INTO", Keyword::Into),
    (b"VALUES", Keyword::Values),
    (b"DELETE", Keyword::Delete),
    (b"WHERE", Keyword::Where),
    (b"UPDATE", Keyword::Update),
    (b"SET", Keyword::Set),
    (b"MERGE", Keyword::Merge),
    (b"USING", Keyword::Using),
    (b"ON", Keyword::On),
    (b"ALTER", Keyword::Alter),
    (b"TABLE", Keyword::Table),
    (b"CREATE", Keyword::Create),
    (b"DROP", Keyword::Drop),
    (b"BRANCH", Keyword::Branch),
    (b"SELECT", Keyword::Select),
    (b"WHEN", Keyword::When),
    (b"MATCHED", Keyword::Matched),
    (b"AND", Keyword::And),
    (b"THEN", Keyword::Then),
    (b"NOT", Keyword::Not),
    (b"BY", Keyword::By),
    (b"TARGET", Keyword::Target),
    (b"OR", Keyword::Or),
    (b"TRUE", Keyword::True),
    (b"FALSE", Keyword::False),
    (b"IS", Keyword::Is),
    (b"NULL", Keyword::Null),
    (b"IN", Keyword::In),
    (b"BETWEEN", Keyword::Between),
    (b"X", Keyword::X),
];

fn is_spelled(spelling: &[u8], word: &[u8]) -> bool
    ensures { result ≡ str_eq_ignore_ascii_case spelling.now word.now }
{
    spelling.eq_ignore_ascii_case(word)
}

fn find_keyword(mut table: &[(&[u8], Keyword)], word: &[u8]) -> Option<Keyword>
    ensures { result ≡ find_keyword (map (λ entry. (entry.0.now, entry.1)) table.entry.now) word.now }
{
    while let [entry, rest @ ..] = table {
        if is_spelled(entry.0, word) {
            return Some(entry.1);
        }
        table = rest;
    }
    None
}

/// The keyword that the word is, in capitals or not.
#[tactic(auto, unfolding(crate::specs::Keywords::keyword_of))]
pub(crate) fn keyword_of(word: &[u8]) -> Option<Keyword>
    ensures { result ≡ keyword_of word.now }
{
    find_keyword(&KEYWORDS, word)
}
