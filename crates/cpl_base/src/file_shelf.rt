//! Real files. What they hold is nothing that a proof can know.

ghost use Rattle.std.specs.Prelude.{◌≡◌};

use crate::shelf::{LoadFault, Shelf};
use std::alloc::Global;
use std::fs::OpenFile;
use std::io::Read;
use std::rt::Files;
use std::{fs, io};

/// Regular files, by their paths from the current folder. It tells nothing of them.
#[derive(Debug, Drop)]
pub struct FileShelf<R: Files> {
    system: R,
    faults: u64,
}

impl<R: Files> FileShelf<R> {
    /// The files that the runtime reaches.
    pub fn new(system: R) -> FileShelf<R>
        ensures { ⟦<FileShelf<R> as Shelf>⟧.faults result ≡ 0 }
    {
        FileShelf { system, faults: 0 }
    }
}

/// The bytes of a regular file, but no more than one past the limit.
fn read_within<R: Files>(
    system: &R,
    alloc: Global,
    name: &str,
    limit: usize,
) -> io::Result<Vec<u8>> {
    // Looked at before it is opened, since to open a pipe may wait for its writer.
    if !fs::metadata(system, name)?.is_file() {
        return Err(io::Error::from(io::ErrorKind::InvalidInput));
    }
    let file = fs::open(system, name)?;
    let mut bytes = Vec::new(alloc);
    let most = (limit as u64).saturating_add(1);
    file.take(most).read_to_end(&mut bytes)?;
    Ok(bytes)
}

impl<R: Files> Shelf for FileShelf<R> {
    ghost use Rattle.std.specs.Prelude.{None};

    ghost files = { λ _. None };

    ghost faults = { λ s. s.faults };

    fn load(&mut self, alloc: Global, name: &str, limit: usize) -> Result<Vec<u8>, LoadFault> {
        match read_within(&self.system, alloc, name, limit) {
            Ok(bytes) if bytes.len() > limit => Err(LoadFault::TooLong),
            Ok(bytes) => Ok(bytes),
            Err(error) if error.kind() == io::ErrorKind::OutOfMemory => Err(LoadFault::Memory),
            Err(_) => {
                self.faults = self.faults.saturating_add(1);
                Err(LoadFault::Failed)
            }
        }
    }
}
