//! Numbers of four hexadecimal digits, as escapes have them.
ghost use Rattle.std.specs.Prelude.{◌≡◌, [], ◌∷◌, ◌<◌, IfSome};
ghost use Rattle.rl_plain.specs.Hexadecimal.{hex_digit, hex_number};

/// The number of four hexadecimal digits, if they are. The last is ASCII then.
pub fn hex_number(a: u8, b: u8, c: u8, d: u8) -> Option<u32>
    ensures number { result ≡ hex_number 0 (a ∷ b ∷ c ∷ d ∷ []) }
    ensures fits { IfSome result (λ number. number < 65536) }
    ensures ascii { IfSome result (λ number. d < 128) }
{
    let number = 16 * hex_digit(a)? + hex_digit(b)?;
    let number = 16 * number + hex_digit(c)?;
    Some(16 * number + hex_digit(d)?)
}

fn hex_digit(byte: u8) -> Option<u32>
    ensures value { result ≡ hex_digit byte }
    ensures digit { IfSome result (λ digit. digit < 16) }
    ensures ascii { IfSome result (λ digit. byte < 128) }
{
    match byte {
        b'0'..=b'9' => Some(u32::from(byte - b'0')),
        b'a'..=b'f' => Some(u32::from(byte - b'a') + 10),
        b'A'..=b'F' => Some(u32::from(byte - b'A') + 10),
        _ => None,
    }
}
