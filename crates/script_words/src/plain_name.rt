ghost use Rattle.std.specs.Prelude.{◌≡◌};
ghost use Rattle.script_words.specs.PlainNames.{are_name_bytes, is_plain_name};

use crate::states::{is_digit, is_name_start};

/// Whether the name is a letter or a low line, and then letters, digits and low lines.
pub fn is_plain_name(name: &[u8]) -> bool
    ensures { result ≡ is_plain_name name.now }
{
    match name {
        [first, rest @ ..] => is_name_start(*first) && are_name_bytes(rest),
        [] => false,
    }
}

#[tactic(auto, unfolding(crate::specs::PlainNames::are_name_bytes))]
fn are_name_bytes(bytes: &[u8]) -> bool
    ensures { result ≡ are_name_bytes bytes.now }
{
    let mut rest = bytes;
    while let [byte, after @ ..] = rest {
        if !is_name_start(*byte) && !is_digit(*byte) {
            return false;
        }
        rest = after;
    }
    true
}
