//! Plans a statement.
ghost use Rattle.std.specs.Prelude.{
  ◌≡◌,
  ◌≢◌,
  ◌≤◌,
  ◌<◌,
  ◌+◌,
  ◌^◌,
  ◌⊎◌,
  ◌↔◌,
  false,
  length,
  is_some,
  option_map,
  Err,
  IfErr,
  IfOk,
  IsErrOf,
  IsTrue,
  OnOk,
};
ghost use Rattle.std.specs.Option.{ForSome};
ghost use Rattle.plain_types.specs.Causes.{HasCause};
ghost use Rattle.row_values.specs.Rows.{AreRows};
ghost use Rattle.store_core.specs.Files.{KeepsFiles};
ghost use Rattle.table_names.specs.FileNames.{NoneFrom};
ghost use Rattle.table_metadata.specs.Metadata.{parts};
ghost use Rattle.table_names.specs.Versions.{version_name};
ghost use Rattle.table_state.specs.Live.{data_files_of};
ghost use Rattle.table_state.specs.States.{IsStateOf};
ghost use Rattle.table_scan.specs.Scanning.{AreCurrentFiles, ReadsCurrent, scanned_at};
ghost use Rattle.change_sets.specs.Verdict.{is_absent};
ghost use Rattle.cow_writer.specs.Copies.{behind, change_of, files_after, pieces_in};
ghost use Rattle.change_sets.specs.Deciding.{written_of};
ghost use Rattle.cow_writer.specs.PutNames.{HasRoom, PutsDataFiles};
ghost use Rattle.cow_writer.specs.Reading.{AreShort};
ghost use Rattle.branch_commit.specs.Committing.{IsScanned, columns_of, filter_on};
ghost use Rattle.branch_commit.specs.Plans.{plan_of};
ghost use Rattle.branch_commit.specs.Planning.{CannotPlan, HasSchema, IsOfColumns, IsOutcome, IsPlannedAt};

use crate::current::load_current;
use crate::outcome::{Outcome, Pending, PlanFault, Planned};
use crate::plans::plan_of;
use change_sets::{Decisions, ScannedFile, is_absent};
use cow_writer::write_copies;
use plain_types::{List, Text};
use row_values::TableSchema;
use sql_predicates::Pred;
use sql_statements::{Source, Statement, filter_of};
use std::alloc::Global;
use store_core::Store;
use table_metadata::current_schema;
use table_names::{Names, version_name};
use table_scan::{decide, scan};
use table_state::{BranchState, LoadFault, State};

// Whether this is the current schema of the version.
fn has_schema(base: &State, schema: &TableSchema) -> bool
    ensures { IsTrue result ↔ HasSchema base.now schema.now }
{
    match current_schema(&base.metadata) {
        Some(current) => *current == *schema,
        None => false,
    }
}

// The data files that hold a row of which the filter is True. A statement that depends on no row reads none.
fn scan_hits<S: Store>(
    alloc: Global,
    store: &mut S,
    base: &State,
    statement: &Statement,
    filter: &Pred,
) -> Result<List<ScannedFile>, LoadFault>
    requires filter { filter.now ≡ filter_on base.now statement.now }
    requires within { ReadsCurrent (parts base.now.metadata) filter.now }
    ensures ok { IfOk result (λ scanned. ForSome (S.files store.old) (IsScanned base.now statement.now scanned)) }
    ensures rows { IfOk result (λ scanned. AreCurrentFiles (parts base.now.metadata) scanned) }
    ensures err { IfErr result (λ f. f ≢ LoadFault.Store → f ≢ LoadFault.Memory
        → ForSome (S.files store.old)
        (λ files. scanned_at base.now.table (parts base.now.metadata) filter.now (data_files_of base.now.head) files ≡ Err f)) }
    ensures files { S.files store.new ≡ S.files store.old }
    ensures unsettled { IsErrOf result LoadFault.Store → 0 < S.unsettled store.new }
    ensures cause { HasCause LoadFault.Store LoadFault.Memory (S.faults store.old) (S.faults store.new) result }
{
    if statement.only_branch() {
        Ok(List::new(alloc))
    } else {
        scan(alloc, store, base, filter)
    }
}

// Puts the new files that the decisions want.
fn write<S: Store>(
    alloc: Global,
    store: &mut S,
    base: State,
    statement: &Statement,
    scanned: &[ScannedFile],
    decisions: &Decisions,
    filter: Pred,
    names: &mut Names,
) -> Result<Pending, LoadFault>
    requires rows { AreRows (columns_of base) (written_of scanned.now decisions.now) }
    requires free { ForSome (S.files store.old) (NoneFrom base.table names.old.run names.old.session names.old.next) }
    requires room { HasRoom names.old }
    ensures read { IfOk result (λ pending. pending.base ≡ base) }
    ensures fixed { IfOk result (λ pending. pending.plan ≡ plan_of base statement.now) }
    ensures change { IfOk result (λ pending. pending.change ≡ change_of base scanned.now decisions.now filter names.old) }
    ensures files { OnOk result (S.files store.new ≡ option_map (files_after base scanned.now decisions.now names.old) (S.files store.old)) }
    ensures short { OnOk result (AreShort (columns_of base) (pieces_in base scanned.now decisions.now)) }
    ensures names { OnOk result (names.new ≡ behind (length (pieces_in base scanned.now decisions.now)) names.old) }
    ensures session { (names.new.run ≡ names.old.run) × (names.new.session ≡ names.old.session) }
    ensures raised { (names.old.next ≤ names.new.next) × (names.new.next ≤ names.old.next + 2 ^ 64) }
    ensures free { ForSome (S.files store.new) (NoneFrom base.table names.new.run names.new.session names.new.next) }
    ensures others { PutsDataFiles base.table names.old (S.files store.old) (S.files store.new) }
    ensures told { is_some (S.files store.new) ≡ is_some (S.files store.old) }
    ensures kept { KeepsFiles (S.files store.old) (S.files store.new) }
    ensures kind { IfErr result (λ f. (f ≡ LoadFault.Store) ⊎ (f ≡ LoadFault.Memory)) }
    ensures unsettled { IsErrOf result LoadFault.Store → 0 < S.unsettled store.new }
    ensures cause { HasCause LoadFault.Store LoadFault.Memory (S.faults store.old) (S.faults store.new) result }
{
    let plan = plan_of(alloc, &base, statement)?;
    match write_copies(alloc, store, &base, scanned, decisions, filter, names) {
        Ok(change) => Ok(Pending { base, plan, change }),
        Err(fault) => Err(fault),
    }
}

// Plans a statement on its branch.
fn plan_on<S: Store>(
    alloc: Global,
    store: &mut S,
    base: State,
    schema: &TableSchema,
    statement: &Statement,
    sources: &[Source],
    names: &mut Names,
) -> Result<Outcome, LoadFault>
    requires schema { HasSchema base schema.now }
    requires there { is_absent base.head ≡ false }
    requires fits { IsOfColumns schema.now.columns sources.now statement.now }
    requires loaded { ForSome (S.files store.old) (λ files. IsStateOf base.table base.version base.branch files base) }
    requires free { ForSome (S.files store.old) (NoneFrom base.table names.old.run names.old.session names.old.next) }
    requires room { HasRoom names.old }
    ensures outcome { IfOk result (λ outcome. ForSome (S.files store.old)
        (λ old. IsOutcome sources.now statement.now names.old base old (S.files store.new) names.new outcome)) }
    ensures err { IfErr result (λ f. f ≢ LoadFault.Store → f ≢ LoadFault.Memory
        → ForSome (S.files store.old) (λ files. scanned_at base.table (parts base.metadata) (filter_on base statement.now)
        (data_files_of base.head) files ≡ Err f)) }
    ensures session { (names.new.run ≡ names.old.run) × (names.new.session ≡ names.old.session) }
    ensures raised { (names.old.next ≤ names.new.next) × (names.new.next ≤ names.old.next + 2 ^ 64) }
    ensures free { ForSome (S.files store.new) (NoneFrom base.table names.new.run names.new.session names.new.next) }
    ensures others { PutsDataFiles base.table names.old (S.files store.old) (S.files store.new) }
    ensures told { is_some (S.files store.new) ≡ is_some (S.files store.old) }
    ensures kept { KeepsFiles (S.files store.old) (S.files store.new) }
    ensures unsettled { IsErrOf result LoadFault.Store → 0 < S.unsettled store.new }
    ensures cause { HasCause LoadFault.Store LoadFault.Memory (S.faults store.old) (S.faults store.new) result }
{
    let columns = schema.columns.as_slice();
    let filter = filter_of(alloc, columns.len(), statement)?;
    let scanned = match scan_hits(alloc, store, &base, statement, &filter) {
        Ok(scanned) => scanned,
        Err(fault) => return Err(fault),
    };
    let scanned = scanned.as_slice();
    let decisions = match decide(alloc, scanned, columns, sources, statement)? {
        Ok(decisions) => decisions,
        Err(why) => return Ok(Outcome::Refused(why)),
    };
    match write(
        alloc, store, base, statement, scanned, &decisions, filter, names,
    ) {
        Ok(pending) => Ok(Outcome::Ready(pending)),
        Err(fault) => Err(fault),
    }
}

// The version has another schema.
fn other_schema(alloc: Global, base: &State) -> PlanFault
    ensures { (result ≡ PlanFault.Load LoadFault.Memory) ⊎ (result ≡ PlanFault.Schema (version_name base.now.table base.now.version)) }
{
    match version_name(alloc, base.table.as_str(), base.version) {
        Ok(name) => PlanFault::Schema(Text::from_string(name)),
        Err(_) => PlanFault::Load(LoadFault::Memory),
    }
}

/// Plans a statement, which was read by the columns of this schema, on its branch at the current version of the table. It reads
/// the branch's metadata, manifest list and manifests once, and each data file once where the statement depends on rows; and it
/// puts the new data files of the statement's change under the next names.
pub fn plan<S: Store>(
    alloc: Global,
    store: &mut S,
    table: &str,
    schema: &TableSchema,
    statement: &Statement,
    sources: &[Source],
    names: &mut Names,
) -> Result<Planned, PlanFault>
    requires fits { IsOfColumns schema.now.columns sources.now statement.now }
    requires free { ForSome (S.files store.old) (NoneFrom table.now names.old.run names.old.session names.old.next) }
    requires room { HasRoom names.old }
    ensures planned { IfOk result (λ planned. ForSome (S.files store.old)
        (λ old. IsPlannedAt sources.now statement.now names.old table.now schema.now old (S.files store.new) names.new planned)) }
    ensures refused { IfErr result (λ fault. ForSome (S.files store.old) (λ old. CannotPlan table.now schema.now statement.now old fault)) }

    // Whatever it answers: the names that are left are free, and no file but those of new names changes.
    ensures session { (names.new.run ≡ names.old.run) × (names.new.session ≡ names.old.session) }
    ensures raised { (names.old.next ≤ names.new.next) × (names.new.next ≤ names.old.next + 2 ^ 64) }
    ensures free { ForSome (S.files store.new) (NoneFrom table.now names.new.run names.new.session names.new.next) }
    ensures others { PutsDataFiles table.now names.old (S.files store.old) (S.files store.new) }
    ensures told { is_some (S.files store.new) ≡ is_some (S.files store.old) }
    ensures kept { KeepsFiles (S.files store.old) (S.files store.new) }
    ensures unsettled { IsErrOf result (PlanFault.Load LoadFault.Store) → 0 < S.unsettled store.new }
    ensures cause { HasCause (PlanFault.Load LoadFault.Store) (PlanFault.Load LoadFault.Memory) (S.faults store.old) (S.faults store.new) result }
{
    let base = match load_current(alloc, store, table, statement.branch().as_str()) {
        Ok(base) => base,
        Err(fault) => return Err(PlanFault::Load(fault)),
    };
    let version = base.version;
    if !has_schema(&base, schema) {
        return Err(other_schema(alloc, &base));
    }
    if is_absent(&base.head) {
        let outcome = Outcome::NoBranch;
        return Ok(Planned { version, outcome });
    }
    match plan_on(alloc, store, base, schema, statement, sources, names) {
        Ok(outcome) => Ok(Planned { version, outcome }),
        Err(fault) => Err(PlanFault::Load(fault)),
    }
}
