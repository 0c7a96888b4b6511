//! Where bytes come from and where they go to.
ghost use Rattle.ao_base.specs.Outside.{Side, Reads, Writes};

use thiserror::Error;

/// A fault of the outside.
#[derive(Debug, Drop, Error)]
#[error("a fault of the outside")]
pub struct Failed;

/// Where bytes come from. A source may tell the bytes that it has left, and it has a count of
/// faults, at most 2^64 - 1, that never falls. It may also tell a number: while it gives fewer bytes
/// than that, the count stays as it is.
pub trait Source {
    // The bytes that are left, where they are told; the count of faults; and that number, where it is
    // told.
    ghost side: { Self → Side };

    /// Puts the next bytes into the front of `buf` and answers how many; with a `buf` that isn't
    /// empty none only at the end. Failed gives no byte, and comes only where the count rose or
    /// stands at 2^64 - 1.
    fn read(&mut self, buf: &mut [u8]) -> Result<usize, Failed>
        ensures { Reads (side self.old) (side self.new) buf.new result };
}

/// Where bytes go to. A sink may tell the bytes that it holds, and it has a count of faults, at most
/// 2^64 - 1, that never falls. It may also tell a number: while it takes fewer bytes than that, the
/// count stays as it is.
pub trait Sink {
    // The bytes that it holds, where they are told; the count of faults; and that number, where it is
    // told.
    ghost side: { Self → Side };

    /// Takes bytes from the front of `buf` and answers how many; of a `buf` that isn't empty at
    /// least one. Failed takes no byte, and comes only where the count rose or stands at 2^64 - 1.
    fn write(&mut self, buf: &[u8]) -> Result<usize, Failed>
        ensures { Writes (side self.old) (side self.new) buf.now result };
}
