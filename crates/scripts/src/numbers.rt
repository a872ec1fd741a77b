ghost use Rattle.std.specs.Prelude.{◌≡◌, ◌<◌, IfSome};
ghost use Rattle.scripts.specs.Numbers.{value_of, digit_of, written, is_prefixed, long_of, number_of};

// The value of a digit, hexadecimal ones among them.
pub(crate) fn value(byte: u8) -> Option<u8>
    ensures value { result ≡ value_of byte }
    ensures small { IfSome result (λ v. v < 16) }
{
    match byte {
        b'0'..=b'9' => Some(byte - b'0'),
        b'a'..=b'f' => Some(byte - b'a' + 10),
        b'A'..=b'F' => Some(byte - b'A' + 10),
        _ => None,
    }
}

// The value of a digit of this base.
fn digit(byte: u8, base: u64) -> Option<u64>
    ensures { result ≡ digit_of base byte }
{
    let value = u64::from(value(byte)?);
    if value < base { Some(value) } else { None }
}

// The number that one digit or more of this base write, if it fits 64 bits.
fn read(digits: &[u8], base: u64) -> Option<u64>
    ensures { result ≡ written base digits.now }
{
    if digits.is_empty() {
        return None;
    }
    let mut number = 0u64;
    for byte in digits {
        let value = digit(*byte, base)?;
        number = number.checked_mul(base)?.checked_add(value)?;
    }
    Some(number)
}

fn is_prefixed(word: &[u8]) -> bool
    ensures { result ≡ is_prefixed word.now }
{
    word.len() >= 2 && word[0] == b'0' && word[1] == b'x'
}

// The number that a word writes, decimal or behind 0x in hexadecimal, if it fits 64 bits.
pub fn long(word: &[u8]) -> Option<u64>
    ensures { result ≡ long_of word.now }
{
    if is_prefixed(word) {
        read(&word[2..], 16)
    } else {
        read(word, 10)
    }
}

// The same, if it fits 32 bits.
pub fn number(word: &[u8]) -> Option<u32>
    ensures { result ≡ number_of word.now }
{
    u32::try_from(long(word)?).ok()
}
