ghost use Rattle.std.specs.Prelude.{◌≡◌, ◌++◌, codes, string_bytes, IfOk};
ghost use Rattle.table_names.specs.FileNames.{named};

use plain_types::Text;
use std::alloc::{AllocError, Global};

/// Draws names for the files of one session of a run.
#[derive(Debug, Drop)]
pub struct Names {
    pub run: u64,
    pub session: Text,
    /// The number of the next file.
    pub next: u128,
}

impl Names {
    ghost use Rattle.std.specs.Prelude.{◌≡◌, ◌<◌, ◌+◌, ◌^◌, string_bytes, IfOk};
    ghost use Rattle.table_names.specs.FileNames.{data_name, metadata_name, writer_text};

    /// A name for a file of data or deletes. Its number is not drawn again, also where memory runs out.
    pub fn data_name(&mut self, alloc: Global, table: &str) -> Result<String, AllocError>
        requires { self.old.next + 1 < 2 ^ 128 }
        ensures name { IfOk result (λ name. string_bytes name ≡ data_name table.now self.old.run self.old.session self.old.next) }
        ensures drawn { self.new ≡ record self.old { next = self.old.next + 1 } }
    {
        let number = self.draw();
        name_in(
            alloc,
            table,
            "/data/r",
            self.run,
            self.session.as_str(),
            number,
        )
    }

    /// The path of the next file of data or deletes, of a table with this location, where no slash ends it. It draws no
    /// number.
    pub fn data_path(&self, alloc: Global, location: &str) -> Result<String, AllocError>
        ensures { IfOk result (λ path. string_bytes path ≡ data_name location.now self.now.run self.now.session self.now.next) }
    {
        name_in(
            alloc,
            location,
            "/data/r",
            self.run,
            self.session.as_str(),
            self.next,
        )
    }

    /// A name for a manifest or a manifest list.
    pub fn metadata_name(&mut self, alloc: Global, table: &str) -> Result<String, AllocError>
        requires { self.old.next + 1 < 2 ^ 128 }
        ensures name { IfOk result (λ name. string_bytes name ≡ metadata_name table.now self.old.run self.old.session self.old.next) }
        ensures drawn { self.new ≡ record self.old { next = self.old.next + 1 } }
    {
        let number = self.draw();
        name_in(
            alloc,
            table,
            "/metadata/r",
            self.run,
            self.session.as_str(),
            number,
        )
    }

    /// The path of the next manifest or manifest list, of a table with this location, where no slash ends it. It draws no
    /// number.
    pub fn metadata_path(&self, alloc: Global, location: &str) -> Result<String, AllocError>
        ensures { IfOk result (λ path. string_bytes path ≡ metadata_name location.now self.now.run self.now.session self.now.next) }
    {
        name_in(
            alloc,
            location,
            "/metadata/r",
            self.run,
            self.session.as_str(),
            self.next,
        )
    }

    /// Who makes a version now. It draws no number.
    pub fn writer_text(&self, alloc: Global) -> Result<String, AllocError>
        ensures { IfOk result (λ text. string_bytes text ≡ writer_text self.now.run self.now.session self.now.next) }
    {
        let run = self.run;
        let session = self.session.as_str();
        let number = self.next;
        format!(in alloc; "r{run}-{session}-{number}w")
    }

    fn draw(&mut self) -> u128
        requires { self.old.next + 1 < 2 ^ 128 }
        ensures number { result ≡ self.old.next }
        ensures drawn { self.new ≡ record self.old { next = self.old.next + 1 } }
    {
        let number = self.next;
        self.next = number + 1;
        number
    }
}

/// The name of a file in a folder of the table.
fn name_in(
    alloc: Global,
    table: &str,
    folder: &str,
    run: u64,
    session: &str,
    number: u128,
) -> Result<String, AllocError>
    ensures { IfOk result (λ name. string_bytes name ≡ table.now ++ (folder.now ++ named run session.now number (codes ".avro"))) }
{
    format!(in alloc; "{table}{folder}{run}-{session}-{number}.avro")
}
