//! Bytes.
ghost use Rattle.lists.specs.Bytes.{AreBytes};

/// Does nothing. A contract sees a slice of bytes as a list of numbers; the clause says that each of them fits a byte.
pub fn bytes_fit(_bytes: &[u8])
    ensures { AreBytes _bytes.now }
{}
