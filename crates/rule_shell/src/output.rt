//! Standard output as a writer that owns what it prints through, so that a box may hold it.
use std::io;
use std::io::Write;

/// Writes what it gets to standard output at once.
#[derive(Drop)]
pub struct Output<P> {
    to: P,
}

impl<P: Print> Output<P> {
    /// A writer to what `to` prints on.
    pub fn new(to: P) -> Self {
        Output { to }
    }
}

impl<P: Print> Write for Output<P> {
    fn write(&mut self, buf: &[u8]) -> io::Result<usize> {
        io::writer(&self.to).write(buf)
    }

    fn flush(&mut self) -> io::Result<()> {
        Ok(())
    }
}
