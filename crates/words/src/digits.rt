// What digits say: the numbers of a script in decimal, its octets in hexadecimal.
ghost use Rattle.std.specs.Prelude.{◌≡◌};
ghost use Rattle.words.specs.Digits.{hex_digit, longer_by, number_of};

// The number with one digit more; nothing where it is too large for 64 bits, or the octet is no digit.
#[tactic(auto, unfolding(crate::specs::Digits::longer_by))]
fn longer(n: u64, octet: u8) -> Option<u64>
    ensures { result ≡ longer_by n octet }
{
    if !octet.is_ascii_digit() {
        return None;
    }
    n.checked_mul(10)?.checked_add((octet - b'0') as u64)
}

// A number: decimal digits, with no sign. Leading zeros are accepted.
#[tactic(auto, using(crate::proofs::Values::turn, crate::proofs::Values::at_end), unfolding(crate::specs::Digits::number_of))]
pub fn read_number(word: &[u8]) -> Option<u64>
    ensures { result ≡ number_of word.now }
{
    if word.is_empty() {
        return None;
    }
    let mut n = 0;
    for octet in word {
        n = longer(n, *octet)?;
    }
    Some(n)
}

// The value of a hexadecimal digit of either case.
#[tactic(auto, unfolding(crate::specs::Digits::hex_digit))]
pub fn hex_digit(octet: u8) -> Option<u8>
    ensures { result ≡ hex_digit octet }
{
    match octet {
        b'0'..=b'9' => Some(octet - b'0'),
        b'a'..=b'f' => Some(octet - b'a' + 10),
        b'A'..=b'F' => Some(octet - b'A' + 10),
        _ => None,
    }
}
