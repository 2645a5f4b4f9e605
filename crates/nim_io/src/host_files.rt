ghost use Rattle.std.specs.Prelude.{◌≡◌, None};

use crate::{Failed, Files, OpenFault, Source};
use std::alloc::Global;
use std::fs;
use std::io::Read;

/// The files of the system. They tell nothing. A folder can be opened, but a read of it fails. A
/// name that no file can have is a missing file. An open or a read that a signal interrupts counts
/// as a fault, as each other error of the system does.
#[derive(Drop)]
pub struct HostFiles<R: std::rt::Files> {
    rt: R,
    faults: u64,
}

/// An open file of the system.
#[derive(Drop)]
pub struct HostSource<F: Read> {
    file: F,
    faults: u64,
}

impl<R: std::rt::Files> HostFiles<R> {
    /// The files that this runtime reaches, with no fault counted yet.
    pub fn new(rt: R) -> HostFiles<R>
        ensures { ⟦<HostFiles<R> as Files>⟧.faults result ≡ 0 }
    {
        HostFiles { rt, faults: 0 }
    }
}

impl<F: Read> Source for HostSource<F> {
    ghost left = { λ s. F.remaining s.file };

    ghost faults = { λ s. s.faults };

    fn read(&mut self, buf: &mut [u8]) -> Result<usize, Failed> {
        match self.file.read(buf) {
            Ok(n) => Ok(n),
            Err(_) => {
                self.faults = self.faults.saturating_add(1);
                Err(Failed)
            }
        }
    }
}

impl<R: std::rt::Files> Files for HostFiles<R> {
    type Item = HostSource<R::File>;

    ghost told = { λ _. None };

    ghost faults = { λ f. f.faults };

    fn open(&mut self, _alloc: Global, name: &str) -> Result<HostSource<R::File>, OpenFault> {
        match fs::open(&self.rt, name) {
            Ok(file) => Ok(HostSource { file, faults: 0 }),
            Err(_) => {
                self.faults = self.faults.saturating_add(1);
                Err(OpenFault::Failed)
            }
        }
    }

    fn close(&mut self, item: HostSource<R::File>) {
        if item.faults != 0 {
            self.faults = self.faults.saturating_add(1);
        }
    }
}
