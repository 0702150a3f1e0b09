// A swap whose outcome is known, also where the store's call fails.
ghost use Rattle.std.specs.Prelude.{◌≡◌, ◌≢◌, ◌≤◌, ◌<◌, ◌⊎◌, None, Some, IfOk, OnOk, IsErrOf, option_map, is_some};
ghost use Rattle.std.specs.Option.{ForSome};
ghost use Rattle.std.specs.FinMap as map;
ghost use Rattle.plain_types.specs.Causes.{bump, Rose, RoseTwice, HasCause};
ghost use Rattle.store_core.specs.Files.{KeepsFiles, swapped};
ghost use Rattle.store_core.specs.Answers.{is_lost};
ghost use Rattle.branch_commit.specs.Settled.{seen, Leaves};

use std::alloc::Global;
use store_core::{ReadAnswer, Store, StoreFault, SwapAnswer};

/// Why it is not known that a swap won or lost.
#[derive(Clone, Copy, Debug, PartialEq, Eq)]
pub enum SwapFault {
    /// The store failed, and the name is not there.
    Store,
    /// The store failed, and failed again when the name was read, so the file may be there or not.
    Unknown,
    /// Memory ran out, perhaps after the store failed, so the file may be there or not.
    Memory,
}

/// Makes a file under a name, unless the name is there already. Where the store fails the name is read: the bytes
/// themselves tell that the swap won, and other bytes that it lost.
pub fn swap<S: Store>(
    alloc: Global,
    store: &mut S,
    name: &str,
    bytes: &[u8],
) -> Result<SwapAnswer, SwapFault>
    requires { ForSome (S.files store.old) (λ told. map.get told name.now ≢ Some bytes.now) }
    ensures answer { IfOk result (λ answer. ForSome (S.files store.old) (λ told. is_lost answer ≡ map.contains_key told name.now)) }
    ensures leaves { Leaves name.now bytes.now (S.files store.old) (S.files store.new) result }
    ensures kept { KeepsFiles (S.files store.old) (S.files store.new) }
    ensures missing { IsErrOf result SwapFault.Store → ForSome (S.files store.old) (λ told. map.get told name.now ≡ None) }
    // What each failure needs of the counts, and that an answer settles what failed.
    ensures later { S.faults store.old ≤ S.faults store.new }
    ensures store { IsErrOf result SwapFault.Store → Rose (S.faults store.old) (S.faults store.new) × (0 < S.unsettled store.new) }
    ensures unknown { IsErrOf result SwapFault.Unknown → RoseTwice (S.faults store.old) (S.faults store.new) × (2 ≤ S.unsettled store.new) }
    ensures memory { IsErrOf result SwapFault.Memory → (S.files store.new ≡ S.files store.old) ⊎ Rose (S.faults store.old) (S.faults store.new) }
    ensures settled { OnOk result ((S.unsettled store.new ≡ 0) ⊎ ((S.unsettled store.new ≡ S.unsettled store.old)
        × (S.faults store.new ≡ S.faults store.old))) }
    ensures reads { S.reads store.new ≤ bump (S.reads store.old) }
{
    match store.swap(alloc, name, bytes) {
        Ok(answer) => Ok(answer),
        Err(StoreFault::Memory) => Err(SwapFault::Memory),
        Err(StoreFault::Failed) => settle(alloc, store, name, bytes),
    }
}

// Tells by the file itself how a failed swap ended.
fn settle<S: Store>(
    alloc: Global,
    store: &mut S,
    name: &str,
    bytes: &[u8],
) -> Result<SwapAnswer, SwapFault>
    ensures answer { IfOk result (λ answer. ForSome (S.files store.old) (λ told. seen bytes.now (map.get told name.now) ≡ Some answer)) }
    ensures missing { IsErrOf result SwapFault.Store → ForSome (S.files store.old) (λ told. map.get told name.now ≡ None) }
    ensures files { S.files store.new ≡ S.files store.old }
    ensures later { S.faults store.old ≤ S.faults store.new }
    ensures unknown { IsErrOf result SwapFault.Unknown → Rose (S.faults store.old) (S.faults store.new)
        × (S.unsettled store.new ≡ bump (S.unsettled store.old)) }
    ensures store { IsErrOf result SwapFault.Store → S.unsettled store.new ≡ S.unsettled store.old }
    ensures settled { OnOk result (S.unsettled store.new ≡ 0) }
    ensures reads { S.reads store.new ≡ bump (S.reads store.old) }
{
    match store.read(alloc, name) {
        Ok(ReadAnswer::Found(found)) => Ok(seen(found.as_slice(), bytes)),
        Ok(ReadAnswer::Missing) => Err(SwapFault::Store),
        Err(StoreFault::Failed) => Err(SwapFault::Unknown),
        Err(StoreFault::Memory) => Err(SwapFault::Memory),
    }
}

// What the bytes under the name say of a swap of these ones.
fn seen(found: &[u8], bytes: &[u8]) -> SwapAnswer
    ensures { Some result ≡ seen bytes.now (Some found.now) }
{
    if found == bytes {
        SwapAnswer::Won
    } else {
        SwapAnswer::Lost
    }
}
