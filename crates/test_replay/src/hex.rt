// Bytes in hexadecimal: two lowercase digits to a byte, the most significant first. The kit's crate `hex` reads uppercase digits too.
ghost use Rattle.std.specs.Prelude.{◌≡◌, ◌<◌, IfSome};
ghost use Rattle.test_replay.specs.Hex.{value_of, decoded};

#[tactic(auto, unfolding(crate::specs::Hex::value_of))]
fn value(digit: u8) -> Option<u8>
    ensures is { result ≡ value_of digit }
    ensures below { IfSome result (λ v. v < 16) }
{
    match digit {
        b'0'..=b'9' => Some(digit - b'0'),
        b'a'..=b'f' => Some(digit - b'a' + 10),
        _ => None,
    }
}

// The N bytes of as many pairs of digits.
#[tactic(auto, unfolding(crate::specs::Hex::decoded))]
pub fn decode<const N: usize>(digits: &[u8]) -> Option<[u8; N]>
    ensures { result ≡ decoded N digits.now }
{
    let (pairs, rest) = digits.as_chunks::<2>();
    if pairs.len() != N || !rest.is_empty() {
        return None;
    }
    let mut bytes = [0; N];
    for (i, [high, low]) in pairs.iter().enumerate() {
        bytes[i] = 16 * value(*high)? + value(*low)?;
    }
    Some(bytes)
}
