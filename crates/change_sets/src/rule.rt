use std::fmt;

/// A rule that a commit is validated by.
#[derive(Clone, Copy, Debug, PartialEq, Eq)]
pub enum Rule {
    V0,
    V1,
    V2,
    V3,
    V4,
}

impl fmt::Display for Rule {
    ghost use Rattle.std.specs.Prelude.{Some};
    ghost use Rattle.change_sets.specs.Saying.{rule_text};

    ghost output = { λ rule. Some (rule_text rule) };

    fn fmt<W: fmt::Write>(&self, f: &mut fmt::Formatter<W>) -> fmt::Result {
        f.write_str(match self {
            Rule::V0 => "V0",
            Rule::V1 => "V1",
            Rule::V2 => "V2",
            Rule::V3 => "V3",
            Rule::V4 => "V4",
        })
    }
}
