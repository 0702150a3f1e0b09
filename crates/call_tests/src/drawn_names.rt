//! The names of the files of a run.

ghost use Rattle.std.specs.Prelude.{◌≡◌, IfOk};

use plain_types::Text;
use std::alloc::{AllocError, Global};
use std::test::Fail;
use table_names::Names;

fn names(alloc: Global) -> Result<Names, AllocError>
    ensures { IfOk result (λ names. names.next ≡ 9) }
{
    Ok(Names {
        run: 2,
        session: Text::copy_of(alloc, "load_1")?,
        next: 9,
    })
}

#[test]
fn each_name_has_a_number_of_its_own(rt: HostRuntime) -> Result<(), Fail> {
    let alloc = rt.alloc();
    let mut names = names(alloc)?;
    let data = names.data_name(alloc, "t")?;
    assert_eq!(rt; data.as_str(), "t/data/r2-load_1-9.avro");
    let metadata = names.metadata_name(alloc, "t")?;
    assert_eq!(rt; metadata.as_str(), "t/metadata/r2-load_1-10.avro");
    assert_eq!(rt; names.writer_text(alloc)?.as_str(), "r2-load_1-11w");
    Ok(())
}
