//! A sink of one's own.

use serde_cbor::Result;
use serde_cbor::ser::Write;

/// A sink that counts the bytes that it is given, and takes them all.
#[derive(Drop)]
pub struct Counter {
    pub count: usize,
}

impl Write for Counter {
    ghost use Rattle.std.specs.Prelude.{None};

    ghost written = { λ _. None };

    ghost refuses = { λ _ _. ⊥ };

    fn write_all(&mut self, buf: &[u8]) -> Result<()> {
        self.count = self.count.saturating_add(buf.len());
        Ok(())
    }
}
