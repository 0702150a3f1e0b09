// The branches of a version.
ghost use Rattle.std.specs.Prelude.{◌≡◌};
ghost use Rattle.table_state.specs.Live.{head_of};

use table_metadata::RefItem;

/// The id of a branch's snapshot, where the branch has one.
#[tactic(auto, unfolding(crate::specs::Live::head_of))]
pub fn head_of(branch: &str, refs: &[RefItem]) -> Option<i64>
    ensures { result ≡ head_of branch.now refs.now }
{
    let mut rest = refs;
    while let [item, after @ ..] = rest {
        if item.name.as_str() == branch && !item.tag {
            return Some(item.snapshot);
        }
        rest = after;
    }
    None
}
