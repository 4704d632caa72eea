//! What a caller is told of the system's errors.
use outside::Fault;
use std::io::{Error, ErrorKind};

/// Memory where the system or the allocator has none left; Failed at every other error.
pub(crate) fn fault_of(error: Error) -> Fault {
    if error.kind() == ErrorKind::OutOfMemory {
        Fault::Memory
    } else {
        Fault::Failed
    }
}
