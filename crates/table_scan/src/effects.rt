// What a statement does with the rows that are hit, each looked at once and where it stands.
ghost use Rattle.std.specs.Prelude.{◌≡◌, ◌++◌, [], ◌∷◌, filter, map, length, IsTrue, IfOk, OnOk};
ghost use Rattle.std.specs.List.{list_all, flat_map};
ghost use Rattle.sql_statements.specs.Effects.{replacement, replacements};
ghost use Rattle.sql_statements.specs.Fits.{are_wide, source_is_wide, statement_is_within};
ghost use Rattle.change_sets.specs.Scanned.{row_of as row_in};
ghost use Rattle.table_scan.specs.Scanning.{is_hit};
ghost use Rattle.table_scan.specs.Decisions.{decision_by, decision_for, hit_in, hit_rows};

use change_sets::{Decision, LiveRow, ScannedFile};
use plain_types::List;
use row_values::Row;
use sql_statements::{Effect, NewRow, Source, Statement, row_effect, row_of};
use std::alloc::{AllocError, Global};

/// The decisions of rows, and the rows that replace them as computed.
#[derive(Drop)]
pub(crate) struct Effects {
    pub decisions: List<Decision>,
    pub made: List<NewRow>,
}

fn add_effect(
    alloc: Global,
    effect: Effect,
    decisions: &mut List<Decision>,
    made: &mut List<NewRow>,
) -> Result<(), AllocError>
    ensures decided { OnOk result (decisions.new ≡ decisions.old ++ decision_by effect ∷ []) }
    ensures replaced { OnOk result (made.new ≡ made.old ++ replacement effect) }
{
    match effect {
        Effect::Keep => decisions.push(Decision::Keep),
        Effect::Remove => decisions.push(Decision::Remove),
        Effect::Replace(new) => {
            decisions.push(Decision::Replace(row_of(alloc, new.as_slice())?))?;
            made.push(new)
        }
    }
}

#[tactic(auto, unfolding(crate::specs::Decisions::decision_for, sql_statements::specs::Effects::replacements))]
fn add_row(
    alloc: Global,
    sources: &[Source],
    statement: &Statement,
    row: &Row,
    decisions: &mut List<Decision>,
    made: &mut List<NewRow>,
) -> Result<(), AllocError>
    requires reads { IsTrue (statement_is_within (length row.now) sources.now statement.now) }
    requires wide { IsTrue (list_all source_is_wide sources.now) }
    ensures decided { OnOk result (decisions.new ≡ decisions.old ++ decision_for sources.now statement.now row.now ∷ []) }
    ensures replaced { OnOk result (made.new ≡ made.old ++ replacements sources.now statement.now row.now) }
{
    let effect = row_effect(alloc, sources, statement, row)?;
    add_effect(alloc, effect, decisions, made)
}

fn add_live(
    alloc: Global,
    width: usize,
    sources: &[Source],
    statement: &Statement,
    live: &LiveRow,
    decisions: &mut List<Decision>,
    made: &mut List<NewRow>,
) -> Result<(), AllocError>
    requires reads { IsTrue (statement_is_within width sources.now statement.now) }
    requires row { IsTrue (are_wide width (map row_in (filter is_hit (live.now ∷ [])))) }
    requires wide { IsTrue (list_all source_is_wide sources.now) }
    ensures decided { OnOk result (decisions.new ≡ decisions.old ++ map (decision_for sources.now statement.now) (map row_in (filter is_hit (live.now ∷ [])))) }
    ensures replaced { OnOk result (made.new ≡ made.old ++ flat_map (replacements sources.now statement.now) (map row_in (filter is_hit (live.now ∷ [])))) }
{
    if live.hit {
        add_row(alloc, sources, statement, &live.row, decisions, made)?;
    }
    Ok(())
}

#[tactic(auto, using(crate::proofs::HitSteps::one_is_wide, crate::proofs::HitSteps::one_more_decided, crate::proofs::HitSteps::one_more_replaced))]
fn add_file(
    alloc: Global,
    width: usize,
    sources: &[Source],
    statement: &Statement,
    file: &ScannedFile,
    decisions: &mut List<Decision>,
    made: &mut List<NewRow>,
) -> Result<(), AllocError>
    requires reads { IsTrue (statement_is_within width sources.now statement.now) }
    requires rows { IsTrue (are_wide width (hit_in file.now)) }
    requires wide { IsTrue (list_all source_is_wide sources.now) }
    ensures decided { OnOk result (decisions.new ≡ decisions.old ++ map (decision_for sources.now statement.now) (hit_in file.now)) }
    ensures replaced { OnOk result (made.new ≡ made.old ++ flat_map (replacements sources.now statement.now) (hit_in file.now)) }
{
    let live_rows = file.rows.as_slice();
    for live in live_rows {
        add_live(alloc, width, sources, statement, live, decisions, made)?;
    }
    Ok(())
}

/// What the statement does with each row that is hit.
#[tactic(auto, using(crate::proofs::HitSteps::file_is_wide, crate::proofs::HitSteps::file_decided, crate::proofs::HitSteps::file_replaced))]
pub(crate) fn effects_on(
    alloc: Global,
    width: usize,
    sources: &[Source],
    statement: &Statement,
    scanned: &[ScannedFile],
) -> Result<Effects, AllocError>
    requires reads { IsTrue (statement_is_within width sources.now statement.now) }
    requires rows { IsTrue (are_wide width (hit_rows scanned.now)) }
    requires wide { IsTrue (list_all source_is_wide sources.now) }
    ensures decided { IfOk result (λ effects. effects.decisions ≡ map (decision_for sources.now statement.now) (hit_rows scanned.now)) }
    ensures replaced { IfOk result (λ effects. effects.made ≡ flat_map (replacements sources.now statement.now) (hit_rows scanned.now)) }
{
    let mut decisions = List::new(alloc);
    let mut made = List::new(alloc);
    for file in scanned {
        add_file(
            alloc,
            width,
            sources,
            statement,
            file,
            &mut decisions,
            &mut made,
        )?;
    }
    Ok(Effects { decisions, made })
}
