// A directory that tells nothing of its files, and whose reads leave out the last byte.
use sv_dir::{Dir, DirError, Found, MemDir, Removal};
use sv_model::FileNumber;

#[derive(Drop)]
pub struct ShortDir {
    pub inner: MemDir,
}

impl Dir for ShortDir {
    ghost use Rattle.std.specs.Prelude.{None};
    ghost use Rattle.sv_dir.specs.MemDir.{faults_of};

    ghost files = { λ _. None };

    ghost faults = { λ dir. faults_of dir.inner };

    fn list(&mut self) -> Result<Vec<String>, DirError> {
        self.inner.list()
    }

    fn put(&mut self, number: FileNumber, bytes: &[u8]) -> Result<(), DirError> {
        self.inner.put(number, bytes)
    }

    fn read(&mut self, number: FileNumber) -> Result<Found, DirError> {
        match self.inner.read(number) {
            Ok(Found::Bytes(bytes)) => {
                let mut short = bytes;
                let _last = short.pop();
                Ok(Found::Bytes(short))
            }
            answer => answer,
        }
    }

    fn remove(&mut self, number: FileNumber) -> Result<Removal, DirError> {
        self.inner.remove(number)
    }
}
