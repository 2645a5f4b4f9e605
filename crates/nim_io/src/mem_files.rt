ghost use Rattle.std.specs.Prelude.{◌≡◌, ◌≢◌, ◌+◌, ◌-◌, ◌^◌, [], Some, min, IfOk, IsErrOf, OnErr, OnOk, ◌↔◌};
ghost use Rattle.std.specs.Option.{option_copied, option_map};
ghost use Rattle.nim_io.specs.Counts.{Rose, NeverFalls};
ghost use Rattle.nim_io.specs.Files.{content, OpensFile};
ghost use Rattle.nim_io.specs.MemFiles.{entries, reads_named};

use crate::{Files, MemSource, OpenFault, Source};
use nim_base::NoMemory;
use std::alloc::Global;

/// Where files in memory are to fail. All numbers count from 0.
#[derive(Clone, Copy, Debug, PartialEq, Eq)]
pub enum FileFail {
    /// At the open of this number.
    Open(u32),
    /// At the read of this number of the source of number `opened`. An open that fails opens none.
    Read { opened: u32, read: u32 },
}

/// Files in memory. They tell their names with their bytes, and fail where they were made to fail.
#[derive(Debug, Drop)]
pub struct MemFiles {
    files: Vec<(String, Vec<u8>)>,
    fails: Vec<FileFail>,
    opens: u32,
    opened: u32,
    faults: u64,
}

impl MemFiles {
    ghost use Rattle.nim_io.specs.MemFiles.{fails_of, opens_of, opened_of};
    ghost use Rattle.nim_io.specs.MemSource as source;

    /// Of two files of one name only the first can be opened.
    pub fn new(files: Vec<(String, Vec<u8>)>, fails: Vec<FileFail>) -> MemFiles
        ensures told { ⟦<MemFiles as Files>⟧.told result ≡ Some (entries files.items) }
        ensures faults { ⟦<MemFiles as Files>⟧.faults result ≡ 0 }
        ensures fails { fails_of result ≡ fails.items }
        ensures counted { (opens_of result ≡ 0) × (opened_of result ≡ 0) }
    {
        MemFiles {
            files,
            fails,
            opens: 0,
            opened: 0,
            faults: 0,
        }
    }

    /// The source that is opened next, of these bytes, with the reads at which it is to fail.
    fn next_source(&self, alloc: Global, bytes: &[u8]) -> Result<MemSource, NoMemory>
        ensures bytes { IfOk result (λ s. ⟦<MemSource as Source>⟧.left s ≡ Some bytes.now) }
        ensures faults { IfOk result (λ s. ⟦<MemSource as Source>⟧.faults s ≡ 0) }
        ensures fails { IfOk result (λ s. source.fails_of s ≡ reads_named (fails_of self.now) (opened_of self.now)) }
        ensures counted { IfOk result (λ s. source.read_count s ≡ 0) }
    {
        let mut reads = Vec::new(alloc);
        for fail in self.fails.as_slice() {
            if let FileFail::Read { opened, read } = fail {
                if *opened == self.opened {
                    reads.push(*read)?;
                }
            }
        }
        Ok(MemSource::new(bytes.to_vec(alloc)?, reads))
    }
}

/// The bytes of the first file of this name.
fn find<'a>(files: &'a [(String, Vec<u8>)], name: &str) -> Option<&'a Vec<u8>>
    ensures { option_map (λ bytes. bytes.items) (option_copied result) ≡ content name.now (entries files.now) }
{
    for file in files {
        if file.0.as_str() == name {
            return Some(&file.1);
        }
    }
    None
}

impl Files for MemFiles {
    ghost use Rattle.nim_io.specs.MemFiles.{FailsToOpen, fails_of, opens_of, opened_of};
    ghost use Rattle.nim_io.specs.MemSource as source;

    type Item = MemSource;

    ghost told = { λ f. Some (entries f.files.items) };

    ghost faults = { λ f. f.faults };

    fn open(&mut self, alloc: Global, name: &str) -> Result<MemSource, OpenFault>
        ensures bytes { IfOk result (λ item. OpensFile (Some (entries self.old.files.items)) name.now
            (⟦<MemSource as Source>⟧.left item)) }
        ensures fresh { IfOk result (λ item. ⟦<MemSource as Source>⟧.faults item ≡ 0) }
        ensures cause { IsErrOf result OpenFault.Failed → Rose self.old.faults self.new.faults }
        ensures quiet { OnOk result (self.new.faults ≡ self.old.faults) }
        ensures memory { IsErrOf result OpenFault.NoMemory → self.new.faults ≡ self.old.faults }
        ensures later { NeverFalls self.old.faults self.new.faults }
        ensures same { Some (entries self.new.files.items) ≡ Some (entries self.old.files.items) }

        // It fails where it is to fail or the name is missing, and nowhere else; so does the source that it opens.
        ensures named { IsErrOf result OpenFault.Failed ↔ FailsToOpen self.old name.now }
        ensures reads { IfOk result (λ item. source.fails_of item
            ≡ reads_named (fails_of self.old) (opened_of self.old)) }
        ensures first { IfOk result (λ item. source.read_count item ≡ 0) }
        ensures kept { fails_of self.new ≡ fails_of self.old }
        ensures counted { opens_of self.new ≡ min (opens_of self.old + 1) (2 ^ 32 - 1) }
        ensures opened { OnOk result (opened_of self.new ≡ min (opened_of self.old + 1) (2 ^ 32 - 1)) }
        ensures unopened { OnErr result (opened_of self.new ≡ opened_of self.old) }
    {
        let call = self.opens;
        self.opens = call.saturating_add(1);
        if self.fails.contains(&FileFail::Open(call)) {
            self.faults = self.faults.saturating_add(1);
            return Err(OpenFault::Failed);
        }
        let Some(bytes) = find(self.files.as_slice(), name) else {
            self.faults = self.faults.saturating_add(1);
            return Err(OpenFault::Failed);
        };
        let source = self.next_source(alloc, bytes)?;
        self.opened = self.opened.saturating_add(1);
        Ok(source)
    }

    fn close(&mut self, item: MemSource)
        ensures cause { ⟦<MemSource as Source>⟧.faults item ≢ 0 → Rose self.old.faults self.new.faults }
        ensures quiet { ⟦<MemSource as Source>⟧.faults item ≡ 0 → self.new.faults ≡ self.old.faults }
        ensures later { NeverFalls self.old.faults self.new.faults }
        ensures same { Some (entries self.new.files.items) ≡ Some (entries self.old.files.items) }
        ensures kept { fails_of self.new ≡ fails_of self.old }
        ensures counted { (opens_of self.new ≡ opens_of self.old) × (opened_of self.new ≡ opened_of self.old) }
    {
        if item.faults() != 0 {
            self.faults = self.faults.saturating_add(1);
        }
    }
}
