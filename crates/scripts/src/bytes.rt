ghost use Rattle.std.specs.Prelude.{◌≡◌, ◌<◌, IfOk};
ghost use Rattle.std.specs.List.{list_all};
ghost use Rattle.scripts.specs.Bytes.{is_digit, is_hexes, is_repeat, is_dash, nibble, pair_of, hex_bytes, bytes_in, data_of, repeat_of, WritesData};

use crate::numbers::{number, value};
use std::alloc::{AllocError, Global};

// Bytes that a word writes: in hexadecimal, or one of them again and again.
#[derive(Clone, Copy)]
pub enum Data<'a> {
    Hex(&'a [u8]),
    Repeat { count: u32, byte: u8 },
}

// The value of a hexadecimal digit; 0 at any other byte.
fn nibble(byte: u8) -> u8
    ensures value { result ≡ nibble byte }
    ensures small { result < 16 }
{
    value(byte).unwrap_or(0)
}

// A byte of two hexadecimal digits.
fn pair(high: u8, low: u8) -> u8
    ensures { result ≡ pair_of high low }
{
    nibble(high) * 16 + nibble(low)
}

fn is_digit(byte: u8) -> bool
    ensures { result ≡ is_digit byte }
{
    value(byte).is_some()
}

fn are_digits(word: &[u8]) -> bool
    ensures { result ≡ list_all is_digit word.now }
{
    word.iter().all(|byte| is_digit(*byte))
}

// Whether a word is pairs of hexadecimal digits.
fn is_hexes(word: &[u8]) -> bool
    ensures { result ≡ is_hexes word.now }
{
    word.len() % 2 == 0 && are_digits(word)
}

// The bytes that NNxBB writes: the number NN of them, each BB.
fn repeated<'a>(count: &[u8], high: u8, low: u8) -> Option<Data<'a>>
    ensures { WritesData (repeat_of count.now high low) result }
{
    let count = number(count)?;
    if !is_hexes(&[high, low]) {
        return None;
    }
    Some(Data::Repeat {
        count,
        byte: pair(high, low),
    })
}

// The bytes of pairs of hexadecimal digits.
fn hex_bytes(heap: Global, digits: &[u8]) -> Result<Vec<u8>, AllocError>
    ensures { IfOk result (λ v. v.items ≡ hex_bytes digits.now) }
{
    let mut bytes = Vec::new(heap);
    let mut rest = digits;
    while let [high, low, others @ ..] = rest {
        bytes.push(pair(*high, *low))?;
        rest = others;
    }
    Ok(bytes)
}

fn is_dash(word: &[u8]) -> bool
    ensures { result ≡ is_dash word.now }
{
    word.len() == 1 && word[0] == b'-'
}

fn is_repeat(word: &[u8]) -> bool
    ensures { result ≡ is_repeat word.now }
{
    word.len() >= 3 && word[word.len() - 3] == b'x'
}

impl<'a> Data<'a> {
    // The bytes that a word writes, if it is - or hexadecimal or NNxBB.
    pub fn read(word: &'a [u8]) -> Option<Data<'a>>
        ensures { WritesData (data_of word.now) result }
    {
        if is_dash(word) {
            return Some(Data::Hex(&[]));
        }
        if is_repeat(word) {
            let (count, byte) = word.split_at(word.len() - 3);
            return repeated(count, byte[1], byte[2]);
        }
        if is_hexes(word) {
            Some(Data::Hex(word))
        } else {
            None
        }
    }

    // The bytes themselves.
    pub fn bytes(&self, heap: Global) -> Result<Vec<u8>, AllocError>
        ensures { IfOk result (λ v. v.items ≡ bytes_in self.now) }
    {
        match self {
            Data::Hex(digits) => hex_bytes(heap, digits),
            Data::Repeat { count, byte } => vec![in heap; *byte; *count as usize],
        }
    }
}
