// The files in memory, by name.
ghost use Rattle.std.specs.Prelude.{◌≡◌, ◌≢◌, ℕ, Some, List, [], option_map, OnOk, OnErr};
ghost use Rattle.pv_script.specs.Calm.{bytes_under};

use crate::NoMemory;
use std::alloc::Global;
use std::collections::BTreeMap;
use std::marker::Model;

/// Files by name, seen as the list of their names with their bytes.
#[derive(Drop)]
pub(crate) struct NamedFiles {
    alloc: Global,
    files: BTreeMap<String, Vec<u8>>,
}

impl Model for NamedFiles {
    ghost use Rattle.std.specs.Prelude.{ℕ, List, map};
    ghost use Rattle.std.specs.String.{string_bytes};

    ghost Value = { List (List ℕ × List ℕ) };

    ghost view = { λ s. map (λ e. (string_bytes e.0, e.1.items)) s.files.entries };
}

impl NamedFiles {
    /// No files, which take no memory.
    pub(crate) fn new(alloc: Global) -> NamedFiles
        ensures { result ≡ [] }
    {
        NamedFiles {
            alloc,
            files: BTreeMap::new(alloc),
        }
    }

    /// Puts a file under this name, in the place of an older one. The only error is want of memory, which changes nothing.
    pub(crate) fn put(&mut self, name: &str, bytes: &[u8]) -> Result<(), NoMemory>
        ensures put { OnOk result (bytes_under self.new name.now ≡ Some bytes.now) }
        ensures others { (n : List ℕ) → n ≢ name.now → bytes_under self.new n ≡ bytes_under self.old n }
        ensures err { OnErr result (self.new ≡ self.old) }
    {
        let key = String::from_str(self.alloc, name)?;
        let held = Vec::from_slice(self.alloc, bytes)?;
        self.files.insert(key, held)?;
        Ok(())
    }

    /// The bytes of the file with this name, where there is one.
    pub(crate) fn get(&self, name: &str) -> Option<&[u8]>
        ensures { option_map (λ b. b.now) result ≡ bytes_under self.now name.now }
    {
        match self.files.get(name) {
            Some(bytes) => Some(bytes.as_slice()),
            None => None,
        }
    }
}
