// Why an expression has no value.
use pv_world::Cause;

/// Why there is no value: no memory was found, or the run ends, by the operation of the node in this line.
#[derive(Clone, Copy)]
pub enum Failure {
    NoMemory,
    Stop(Cause, u32),
}
