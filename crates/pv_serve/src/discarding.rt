//! A sink that keeps nothing.
ghost use Rattle.std.specs.Prelude.{◌<◌, Ok, None};

use pv_script::{Failed, Sink};

/// A sink that drops what it takes: it takes no memory, never fails, and tells none of its bytes.
#[derive(Drop)]
pub struct Nowhere;

impl Sink for Nowhere {
    ghost written = { λ _. None };

    ghost faults = { λ _. 0 };

    fn write(&mut self, bytes: &[u8]) -> Result<usize, Failed> {
        Ok(bytes.len())
    }
}
