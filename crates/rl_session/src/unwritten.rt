//! What was to be printed and is not written, as contracts see it.
ghost use Rattle.std.specs.Prelude.{◌≡◌, ◌++◌};
ghost use Rattle.rl_session.specs.Unwritten.{bytes_of};

use std::mem;
use std::snapshot::Snapshot;

/// Bytes, the last one first. Those before it are seen by contracts alone, so it takes no memory.
#[derive(Drop)]
pub(crate) enum Unwritten {
    Nothing,
    Byte {
        byte: u8,
        before: Snapshot<Unwritten>,
    },
}

// Bytes follow those before them.
pub(crate) fn leave(unwritten: &mut Snapshot<Unwritten>, bytes: &[u8])
    ensures { bytes_of unwritten.new.value ≡ bytes_of unwritten.old.value ++ bytes.now }
{
    for byte in bytes {
        let before = mem::replace(unwritten, Snapshot::of(&Unwritten::Nothing));
        *unwritten = Snapshot::of(&Unwritten::Byte {
            byte: *byte,
            before,
        });
    }
}
