//! How a quantity's text is cut into numbers and units.
ghost use Rattle.std.specs.Prelude.{◌≡◌, ◌≤◌, length, take, drop};
ghost use Rattle.std.specs.List.{prefix_len};
ghost use Rattle.rl_labels.specs.Quantities.{is_byte_of};

/// The longest front of bytes of a number or else of a unit, and the rest.
pub(crate) fn front_of(text: &[u8], of_number: bool) -> (&[u8], &[u8])
    ensures front { result.0.now ≡ take (prefix_len (is_byte_of of_number) text.now) text.now }
    ensures following { result.1.now ≡ drop (prefix_len (is_byte_of of_number) text.now) text.now }
{
    text.split_at(front_len(text, of_number))
}

fn front_len(text: &[u8], of_number: bool) -> usize
    ensures length { result ≡ prefix_len (is_byte_of of_number) text.now }
    ensures within { result ≤ length text.now }
{
    for (index, byte) in text.iter().enumerate() {
        if !is_byte_of(of_number, *byte) {
            return index;
        }
    }
    text.len()
}

// Whether a byte is one of a number, a digit or a point, or else of a unit.
fn is_byte_of(of_number: bool, byte: u8) -> bool
    ensures { result ≡ is_byte_of of_number byte }
{
    (byte.is_ascii_digit() || byte == b'.') == of_number
}
