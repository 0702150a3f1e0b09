//! What the plan of a statement fixes.
ghost use Rattle.std.specs.Prelude.{◌≡◌, IfOk};
ghost use Rattle.session_machine.specs.Plans.{deletes_on_read, is_creation, is_serializable};
ghost use Rattle.branch_commit.specs.Plans.{plan_of};

use change_sets::Plan;
use plain_types::Text;
use sql_statements::Statement;
use std::alloc::{AllocError, Global};
use table_metadata::Properties;
use table_state::State;

fn is_serializable(properties: &Properties, statement: &Statement) -> bool
    ensures { result ≡ is_serializable properties.now statement.now }
{
    match statement {
        Statement::Delete { .. } => !properties.delete.snapshot_level,
        Statement::Update { .. } => !properties.update.snapshot_level,
        Statement::Merge(_) => !properties.merge.snapshot_level,
        Statement::Insert { .. }
        | Statement::CreateBranch { .. }
        | Statement::DropBranch { .. }
        | Statement::Select { .. } => true,
    }
}

fn deletes_on_read(properties: &Properties, statement: &Statement) -> bool
    ensures { result ≡ deletes_on_read properties.now statement.now }
{
    match statement {
        Statement::Delete { .. } => properties.delete.on_read,
        _other => false,
    }
}

fn is_creation(statement: &Statement) -> bool
    ensures { result ≡ is_creation statement.now }
{
    matches!(statement, Statement::CreateBranch { .. })
}

/// The plan of a statement on this branch.
pub fn plan_of(alloc: Global, base: &State, statement: &Statement) -> Result<Plan, AllocError>
    ensures { IfOk result (λ plan. plan ≡ plan_of base.now statement.now) }
{
    let properties = &base.metadata.properties;
    Ok(Plan {
        version: base.version,
        branch: Text::copy_of(alloc, statement.branch().as_str())?,
        serializable: is_serializable(properties, statement),
        only_branch: statement.only_branch(),
        merge_on_read_delete: deletes_on_read(properties, statement),
        creates: is_creation(statement),
    })
}
