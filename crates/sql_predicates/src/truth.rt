ghost use Rattle.std.specs.Prelude.{◌≡◌};
ghost use Rattle.sql_predicates.specs.Truth.{not_truth, and_truth, or_truth, truth_of_bool};

/// What SQL's three-valued logic says of a predicate.
#[derive(Clone, Copy, Debug, PartialEq, Eq)]
pub enum Truth {
    True,
    False,
    Unknown,
}

impl Truth {
    pub fn of(holds: bool) -> Truth
        ensures { result ≡ truth_of_bool holds }
    {
        if holds { Truth::True } else { Truth::False }
    }

    pub fn not(self) -> Truth
        ensures { result ≡ not_truth self }
    {
        match self {
            Truth::True => Truth::False,
            Truth::False => Truth::True,
            Truth::Unknown => Truth::Unknown,
        }
    }

    pub fn and(self, other: Truth) -> Truth
        ensures { result ≡ and_truth self other }
    {
        match (self, other) {
            (Truth::False, _) | (_, Truth::False) => Truth::False,
            (Truth::True, Truth::True) => Truth::True,
            _ => Truth::Unknown,
        }
    }

    pub fn or(self, other: Truth) -> Truth
        ensures { result ≡ or_truth self other }
    {
        match (self, other) {
            (Truth::True, _) | (_, Truth::True) => Truth::True,
            (Truth::False, Truth::False) => Truth::False,
            _ => Truth::Unknown,
        }
    }
}
