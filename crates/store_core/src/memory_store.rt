// A store in memory. Any of its calls can be made to fail.
ghost use Rattle.std.specs.Prelude.{
  ◌≡◌,
  ◌⊎◌,
  ℕ,
  [],
  ◌∷◌,
  ◌++◌,
  Some,
  None,
  IfOk,
  OnOk,
  OnErr,
  IsErr,
  IsOk,
  IsSome,
  IfSome,
  IsErrOf,
  option_map,
  length,
  take,
  ◌/◌,
  ◌↔◌,
  IsTrue,
};
ghost use Rattle.std.specs.Option.{ForSome};
ghost use Rattle.std.specs.FinMap as map;
ghost use Rattle.plain_types.specs.Causes.{bump, HasCause};
ghost use Rattle.store_core.specs.Files.{names_with, with_file, swapped, MayAdd, KeepsFiles};
ghost use Rattle.store_core.specs.Answers.{found, is_lost, unsettled_after, unsettled_after_read};
ghost use Rattle.store_core.specs.Memory.{pairs, files_of, same_kind, counted, calls_of, planned, left_by_put, left_by_swap};
ghost use Rattle.std.specs.Option.{option_copied};
ghost use Rattle.std.specs.Ordering.{nat_cmp};
ghost use Rattle.std.specs.Cmp.Lexicographic.{slice_cmp};

use crate::names::{names_of, with_prefix};
use crate::{ReadAnswer, Store, StoreFault, SwapAnswer};
use plain_types::{Bytes as Blob, List, Text as Name};
use std::alloc::{AllocError, Global};

/// A file of a store in memory.
#[derive(Debug, Drop)]
pub struct File {
    pub name: Name,
    pub bytes: Blob,
}

/// A method of `Store`.
#[derive(Clone, Copy, Debug, PartialEq, Eq)]
pub enum CallKind {
    List,
    Read,
    Put,
    Swap,
}

/// What a failed put or swap leaves under its name. A swap leaves no half.
#[derive(Clone, Copy, Debug, PartialEq, Eq)]
pub enum Leave {
    Nothing,
    Half,
    Whole,
}

/// The nth call of a kind fails, counted from 1.
#[derive(Clone, Copy, Debug, PartialEq, Eq)]
pub struct FailAt {
    pub kind: CallKind,
    pub nth: u64,
    pub leave: Leave,
}

/// How often each method was called.
#[derive(Clone, Copy, Debug, PartialEq, Eq)]
struct Calls {
    lists: u64,
    reads: u64,
    puts: u64,
    swaps: u64,
}

impl Calls {
    const NONE: Calls = Calls {
        lists: 0,
        reads: 0,
        puts: 0,
        swaps: 0,
    };
}

/// A store that is a list of files, with a plan of the calls that fail.
#[derive(Debug, Drop)]
pub struct MemoryStore {
    files: List<File>,
    plan: List<FailAt>,
    calls: Calls,
    faults: u64,
    reads: u64,
    unsettled: u64,
}

impl MemoryStore {
    ghost use Rattle.store_core.specs.MemoryStore.{held, plan_of, IsFresh, leave_of};

    /// An empty store, of which no call fails.
    pub fn new(alloc: Global) -> MemoryStore
        ensures files { held result ≡ [] }
        ensures plan { plan_of result ≡ [] }
        ensures fresh { IsFresh result }
    {
        MemoryStore::failing(List::new(alloc), List::new(alloc))
    }

    /// Of two files of one name the first counts. No call fails.
    pub fn with_files(files: List<File>) -> MemoryStore
        ensures files { held result ≡ files }
        ensures plan { plan_of result ≡ [] }
        ensures fresh { IsFresh result }
    {
        let plan = List::new(files.allocator());
        MemoryStore::failing(files, plan)
    }

    /// A store whose calls fail as planned. Of two plans for one call the first counts.
    pub fn failing(files: List<File>, at: List<FailAt>) -> MemoryStore
        ensures files { held result ≡ files }
        ensures plan { plan_of result ≡ at }
        ensures fresh { IsFresh result }
    {
        MemoryStore {
            files,
            plan: at,
            calls: Calls::NONE,
            faults: 0,
            reads: 0,
            unsettled: 0,
        }
    }

    pub fn files(&self) -> &List<File>
        ensures { result.now ≡ held self.now }
    {
        &self.files
    }

    // Counts a call, and tells whether it is to fail.
    fn begin(&mut self, kind: CallKind) -> Option<Leave>
        ensures leave { result ≡ leave_of kind self.old }
        ensures counted { self.new ≡ record self.old { calls = counted kind self.old.calls } }
    {
        let nth = count(&mut self.calls, kind);
        planned_leave(self.plan.as_slice(), kind, nth)
    }

    fn fail(&mut self)
        ensures { self.new ≡ record self.old { faults = bump self.old.faults; unsettled = bump self.old.unsettled } }
    {
        self.faults = self.faults.saturating_add(1);
        self.unsettled = self.unsettled.saturating_add(1);
    }

    // Adds a file under a new name, unless memory runs out.
    fn add(&mut self, alloc: Global, name: &str, bytes: &[u8]) -> Result<(), AllocError>
        requires { map.get (files_of self.old.files) name.now ≡ None }
        ensures ok { OnOk result (files_of self.new.files ≡ with_file name.now bytes.now (files_of self.old.files)) }
        ensures rest { self.new ≡ record self.old { files = self.new.files } }
        ensures err { OnErr result (self.new ≡ self.old) }
    {
        let name = Name::copy_of(alloc, name)?;
        let bytes = Blob::copy_of(alloc, bytes)?;
        self.files.push(File { name, bytes })
    }

    // What a failed put leaves, unless memory runs out.
    fn leave_put(
        &mut self,
        alloc: Global,
        name: &str,
        bytes: &[u8],
        leave: Leave,
    ) -> Result<(), AllocError>
        requires { map.get (files_of self.old.files) name.now ≡ None }
        ensures ok { OnOk result (files_of self.new.files ≡ left_by_put leave name.now bytes.now (files_of self.old.files)) }
        ensures rest { self.new ≡ record self.old { files = self.new.files } }
        ensures err { OnErr result (self.new ≡ self.old) }
    {
        match leave {
            Leave::Nothing => Ok(()),
            Leave::Half => self.add(alloc, name, &bytes[..bytes.len() / 2]),
            Leave::Whole => self.add(alloc, name, bytes),
        }
    }

    // Adds a file, unless its name is there or memory runs out.
    fn add_new(&mut self, alloc: Global, name: &str, bytes: &[u8]) -> Result<SwapAnswer, AllocError>
        ensures answer { IfOk result (λ answer. is_lost answer ≡ map.contains_key (files_of self.old.files) name.now) }
        ensures ok { OnOk result (files_of self.new.files ≡ swapped name.now bytes.now (files_of self.old.files)) }
        ensures rest { self.new ≡ record self.old { files = self.new.files } }
        ensures err { OnErr result (self.new ≡ self.old) }
    {
        if find(self.files.as_slice(), name).is_some() {
            return Ok(SwapAnswer::Lost);
        }
        self.add(alloc, name, bytes)?;
        Ok(SwapAnswer::Won)
    }
}

fn count(calls: &mut Calls, kind: CallKind) -> u64
    ensures counted { calls.new ≡ counted kind calls.old }
    ensures nth { result ≡ calls_of kind calls.new }
{
    match kind {
        CallKind::List => {
            calls.lists = calls.lists.saturating_add(1);
            calls.lists
        }
        CallKind::Read => {
            calls.reads = calls.reads.saturating_add(1);
            calls.reads
        }
        CallKind::Put => {
            calls.puts = calls.puts.saturating_add(1);
            calls.puts
        }
        CallKind::Swap => {
            calls.swaps = calls.swaps.saturating_add(1);
            calls.swaps
        }
    }
}

fn is_kind(a: CallKind, b: CallKind) -> bool
    ensures { result ≡ same_kind a b }
{
    matches!(
        (a, b),
        (CallKind::List, CallKind::List)
            | (CallKind::Read, CallKind::Read)
            | (CallKind::Put, CallKind::Put)
            | (CallKind::Swap, CallKind::Swap)
    )
}

fn planned_leave(plan: &[FailAt], kind: CallKind, nth: u64) -> Option<Leave>
    ensures { result ≡ planned kind nth plan.now }
{
    for at in plan {
        if is_kind(at.kind, kind) && at.nth == nth {
            return Some(at.leave);
        }
    }
    None
}

// What the files have under a name.
pub(crate) fn find<'a>(files: &'a [File], name: &str) -> Option<&'a Blob>
    ensures { option_copied result ≡ map.get (files_of files.now) name.now }
{
    first_named(files, name)
}

fn first_named<'a>(files: &'a [File], name: &str) -> Option<&'a Blob>
    ensures { option_copied result ≡ map.find (slice_cmp nat_cmp) name.now (pairs files.now) }
{
    for file in files {
        if name.cmp(file.name.as_str()).is_eq() {
            return Some(&file.bytes);
        }
    }
    None
}

impl Store for MemoryStore {
    ghost use Rattle.std.specs.Prelude.{◌≡◌, ◌⊎◌, ℕ, Some, IfOk, OnOk, IsErr, IsSome, IfSome, IsErrOf, option_map};
    ghost use Rattle.std.specs.Option.{ForSome};
    ghost use Rattle.std.specs.FinMap as map;
    ghost use Rattle.plain_types.specs.Causes.{bump, HasCause};
    ghost use Rattle.store_core.specs.Files.{names_with, with_file, swapped, MayAdd, KeepsFiles};
    ghost use Rattle.store_core.specs.Answers.{found, is_lost, unsettled_after, unsettled_after_read};
    ghost use Rattle.store_core.specs.MemoryStore.{told, faults_of, reads_of, unsettled_of, leave_of, Called};
    ghost use Rattle.store_core.specs.Memory.{left_by_put, left_by_swap};
    ghost use Rattle.store_core.specs.declared.memory_store.CallKind.TheVariants as kind;
    ghost use Rattle.store_core.specs.declared.store.StoreFault.TheVariants as fault;

    ghost files = { told };

    ghost faults = { faults_of };

    ghost reads = { reads_of };

    ghost unsettled = { unsettled_of };

    fn list(&mut self, alloc: Global, prefix: &str) -> Result<List<Name>, StoreFault>
        ensures names { IfOk result (λ names. ForSome (told self.old) (λ files. names ≡ names_with prefix.now files)) }
        ensures files { told self.new ≡ told self.old }
        ensures reads { reads_of self.new ≡ reads_of self.old }
        ensures unsettled { unsettled_of self.new ≡ unsettled_after result (unsettled_of self.old) }
        ensures cause { HasCause fault.Failed fault.Memory (faults_of self.old) (faults_of self.new) result }
        // The planned calls fail, and no others.
        ensures planned { IsErrOf result fault.Failed → IsSome (leave_of kind.List self.old) }
        ensures fails { IsSome (leave_of kind.List self.old) → IsErr result }
        ensures called { Called kind.List self.old self.new }
    {
        if self.begin(CallKind::List).is_some() {
            self.fail();
            return Err(StoreFault::Failed);
        }
        let names = names_of(alloc, self.files.as_slice())?;
        Ok(List::from_vec(with_prefix(alloc, names, prefix)?))
    }

    fn read(&mut self, alloc: Global, name: &str) -> Result<ReadAnswer, StoreFault>
        ensures answer { IfOk result (λ answer. ForSome (told self.old) (λ files. found answer ≡ map.get files name.now)) }
        ensures files { told self.new ≡ told self.old }
        ensures reads { reads_of self.new ≡ bump (reads_of self.old) }
        ensures unsettled { unsettled_of self.new ≡ unsettled_after_read result (unsettled_of self.old) }
        ensures cause { HasCause fault.Failed fault.Memory (faults_of self.old) (faults_of self.new) result }
        ensures planned { IsErrOf result fault.Failed → IsSome (leave_of kind.Read self.old) }
        ensures fails { IsSome (leave_of kind.Read self.old) → IsErr result }
        ensures called { Called kind.Read self.old self.new }
    {
        self.reads = self.reads.saturating_add(1);
        if self.begin(CallKind::Read).is_some() {
            self.fail();
            return Err(StoreFault::Failed);
        }
        match find(self.files.as_slice(), name) {
            Some(bytes) => {
                let bytes = Blob::copy_of(alloc, bytes.as_slice())?;
                self.unsettled = 0;
                Ok(ReadAnswer::Found(bytes))
            }
            None => Ok(ReadAnswer::Missing),
        }
    }

    fn put(&mut self, alloc: Global, name: &str, bytes: &[u8]) -> Result<(), StoreFault>
        requires { ForSome (told self.old) (λ files. map.get files name.now ≡ None) }
        ensures ok { OnOk result (told self.new ≡ option_map (with_file name.now bytes.now) (told self.old)) }
        ensures failed { IsErrOf result fault.Failed → MayAdd name.now (told self.old) (told self.new) }
        ensures memory { IsErrOf result fault.Memory → told self.new ≡ told self.old }
        ensures kept { KeepsFiles (told self.old) (told self.new) }
        ensures reads { reads_of self.new ≡ reads_of self.old }
        ensures unsettled { unsettled_of self.new ≡ unsettled_after result (unsettled_of self.old) }
        ensures cause { HasCause fault.Failed fault.Memory (faults_of self.old) (faults_of self.new) result }
        ensures planned { IsErrOf result fault.Failed → IfSome (leave_of kind.Put self.old)
            (λ leave. told self.new ≡ option_map (left_by_put leave name.now bytes.now) (told self.old)) }
        ensures only_planned { IsErrOf result fault.Failed → IsSome (leave_of kind.Put self.old) }
        ensures fails { IsSome (leave_of kind.Put self.old) → IsErr result }
        ensures called { Called kind.Put self.old self.new }
    {
        match self.begin(CallKind::Put) {
            None => Ok(self.add(alloc, name, bytes)?),
            Some(leave) => {
                self.leave_put(alloc, name, bytes, leave)?;
                self.fail();
                Err(StoreFault::Failed)
            }
        }
    }

    fn swap(&mut self, alloc: Global, name: &str, bytes: &[u8]) -> Result<SwapAnswer, StoreFault>
        ensures answer { IfOk result (λ answer. ForSome (told self.old) (λ files. is_lost answer ≡ map.contains_key files name.now)) }
        ensures ok { OnOk result (told self.new ≡ option_map (swapped name.now bytes.now) (told self.old)) }
        ensures failed { IsErrOf result fault.Failed
            → (told self.new ≡ told self.old) ⊎ (told self.new ≡ option_map (swapped name.now bytes.now) (told self.old)) }
        ensures memory { IsErrOf result fault.Memory → told self.new ≡ told self.old }
        ensures kept { KeepsFiles (told self.old) (told self.new) }
        ensures reads { reads_of self.new ≡ reads_of self.old }
        ensures unsettled { unsettled_of self.new ≡ unsettled_after result (unsettled_of self.old) }
        ensures cause { HasCause fault.Failed fault.Memory (faults_of self.old) (faults_of self.new) result }
        ensures planned { IsErrOf result fault.Failed → IfSome (leave_of kind.Swap self.old)
            (λ leave. told self.new ≡ option_map (left_by_swap leave name.now bytes.now) (told self.old)) }
        ensures only_planned { IsErrOf result fault.Failed → IsSome (leave_of kind.Swap self.old) }
        ensures fails { IsSome (leave_of kind.Swap self.old) → IsErr result }
        ensures called { Called kind.Swap self.old self.new }
    {
        match self.begin(CallKind::Swap) {
            None => Ok(self.add_new(alloc, name, bytes)?),
            Some(Leave::Whole) => {
                self.add_new(alloc, name, bytes)?;
                self.fail();
                Err(StoreFault::Failed)
            }
            Some(_) => {
                self.fail();
                Err(StoreFault::Failed)
            }
        }
    }
}
