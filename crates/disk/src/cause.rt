//! Why a disk failed.

use std::io;

/// A disk that tells why its calls fail.
pub trait Cause {
    /// The system's error at the last call that the system refused. `None` where it refused none: then a call that
    /// failed did so without one.
    fn cause(&self) -> Option<io::Error>;
}
