//! Runs of bytes at the front of a text, which is cut after them.
ghost use Rattle.std.specs.Prelude.{◌≡◌, ◌<◌, ℕ, Bool, length, take, drop, slice_index};
ghost use Rattle.std.specs.List.{prefix_len};
ghost use Rattle.rl_plain.specs.Runs.{IsCutAfter};

/// A class of bytes. A text may be cut after the longest run of them at its front.
pub trait ByteClass {
    ghost has: { Self → ℕ → Bool };

    /// Whether the byte is one of them.
    fn has(&self, byte: u8) -> bool
        ensures { result ≡ has self.now byte };

    ghost cuts: { (class : Self) → IsCutAfter (has class) };
}

/// The longest run at the front, and what follows it.
pub fn run_front<'a, C: ByteClass>(class: &C, text: &'a str) -> (&'a str, &'a str)
    ensures front { result.0.now ≡ take (prefix_len (C.has class.now) text.now) text.now }
    ensures following { result.1.now ≡ drop (prefix_len (C.has class.now) text.now) text.now }
{
    text.split_at(run_len(class, text.as_bytes()))
}

/// What follows the first byte, which is ASCII.
pub fn after_first(text: &str) -> &str
    requires some { 0 < length text.now }
    requires ascii { slice_index text.now 0 < 128 }
    ensures { result.now ≡ drop 1 text.now }
{
    let (_, rest) = text.split_at(1);
    rest
}

// How many bytes of the class stand at the front.
fn run_len<C: ByteClass>(class: &C, bytes: &[u8]) -> usize
    ensures { result ≡ prefix_len (C.has class.now) bytes.now }
{
    for (index, byte) in bytes.iter().enumerate() {
        if !class.has(*byte) {
            return index;
        }
    }
    bytes.len()
}
