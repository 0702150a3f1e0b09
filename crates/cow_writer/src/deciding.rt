// What a statement decides of the rows of a file.
ghost use Rattle.std.specs.Prelude.{◌≡◌, ◌≤◌, length};
ghost use Rattle.std.specs.Option.{option_copied};
ghost use Rattle.change_sets.specs.Deciding.{decision_of, decisions_after, hits, is_touched, touches};

use change_sets::{Decision, LiveRow};

// How many of the rows are hit.
#[tactic(auto, unfolding(change_sets::specs::Deciding::hits))]
pub(crate) fn hits(rows: &[LiveRow]) -> usize
    ensures count { result ≡ hits rows.now }
    ensures within { result ≤ length rows.now }
{
    let mut count = 0;
    let mut rest = rows;
    while let [row, after @ ..] = rest {
        if row.hit {
            count += 1;
        }
        rest = after;
    }
    count
}

fn touches(decision: &Decision) -> bool
    ensures { result ≡ touches decision.now }
{
    match decision {
        Decision::Keep => false,
        Decision::Remove | Decision::Replace(_) => true,
    }
}

// Whether a row is removed or replaced.
pub(crate) fn is_touched(decisions: &[Decision]) -> bool
    ensures { result ≡ is_touched decisions.now }
{
    decisions.iter().any(touches)
}

// The decision of the next row, of which there is none where the row is not hit.
pub(crate) fn decision_of<'a>(row: &LiveRow, decisions: &'a [Decision]) -> Option<&'a Decision>
    ensures { option_copied result ≡ decision_of row.now decisions.now }
{
    if row.hit { decisions.first() } else { None }
}

// The decisions of the rows behind it.
pub(crate) fn decisions_after<'a>(row: &LiveRow, decisions: &'a [Decision]) -> &'a [Decision]
    ensures { result.now ≡ decisions_after row.now decisions.now }
{
    if !row.hit {
        return decisions;
    }
    match decisions {
        [_decision, after @ ..] => after,
        [] => decisions,
    }
}
