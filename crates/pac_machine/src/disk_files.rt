// Files by name. They tell nothing.
use pac_ports::{Files, FilesAnswer};
use std::alloc::Global;
use std::fs;
use std::io::{self, Read};

/// Files of the machine, by their names.
#[derive(Drop)]
pub struct DiskFiles<'a, R> {
    rt: &'a R,
    faults: u64,
}

impl<'a, R> DiskFiles<'a, R> {
    pub fn new(rt: &'a R) -> DiskFiles<'a, R> {
        DiskFiles { rt, faults: 0 }
    }
}

impl<R: std::rt::Files> Files for DiskFiles<'_, R> {
    ghost use Rattle.std.specs.Prelude.{None};

    ghost state = { λ f. record { told = None; faults = f.faults; sure = None } };

    fn read_all(
        &mut self,
        alloc: Global,
        name: &str,
        limit: usize,
    ) -> Result<Vec<u8>, FilesAnswer> {
        match read_up_to(self.rt, alloc, name, limit) {
            Ok(bytes) if bytes.len() <= limit => Ok(bytes),
            Ok(_) => Err(FilesAnswer::TooLong),
            Err(error) if error.kind() == io::ErrorKind::OutOfMemory => Err(FilesAnswer::Memory),
            Err(_) => {
                self.faults = self.faults.saturating_add(1);
                Err(FilesAnswer::Failed)
            }
        }
    }
}

// The bytes of a file, as far as one past the limit.
fn read_up_to<R: std::rt::Files>(
    rt: &R,
    alloc: Global,
    name: &str,
    limit: usize,
) -> io::Result<Vec<u8>> {
    let file = fs::open(rt, name)?;
    let mut bytes = Vec::new(alloc);
    file.take((limit as u64).saturating_add(1))
        .read_to_end(&mut bytes)?;
    Ok(bytes)
}
