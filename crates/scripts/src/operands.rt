ghost use Rattle.std.specs.Prelude.{◌≡◌};
ghost use Rattle.scripts.specs.Forms.{texts_of, word_at};
ghost use Rattle.scripts.specs.Operands.{NumberRead, LongRead, DataRead, StateRead, is_blank_word, is_damaged_word};

use crate::bytes::Data;
use crate::lines::Content;
use crate::misreads::Misread;
use crate::numbers;

// Word i, counted from 0; an empty one where there are fewer.
pub(crate) fn word<'a>(words: &[&'a [u8]], at: usize) -> &'a [u8]
    ensures { result.now ≡ word_at (texts_of words.now) at }
{
    match words.get(at) {
        Some(word) => word,
        None => &[],
    }
}

pub(crate) fn number(words: &[&[u8]], at: usize) -> Result<u32, Misread>
    ensures { NumberRead (texts_of words.now) at result }
{
    numbers::number(word(words, at)).ok_or(Misread::Number(at))
}

pub(crate) fn long(words: &[&[u8]], at: usize) -> Result<u64, Misread>
    ensures { LongRead (texts_of words.now) at result }
{
    numbers::long(word(words, at)).ok_or(Misread::Long(at))
}

pub(crate) fn data<'a>(words: &[&'a [u8]], at: usize) -> Result<Data<'a>, Misread>
    ensures { DataRead (texts_of words.now) at result }
{
    Data::read(word(words, at)).ok_or(Misread::Data(at))
}

fn is_blank(word: &[u8]) -> bool
    ensures { result ≡ is_blank_word word.now }
{
    word == b"blank".as_slice()
}

fn is_damaged(word: &[u8]) -> bool
    ensures { result ≡ is_damaged_word word.now }
{
    word == b"damaged".as_slice()
}

// A chunk that is blank or damaged.
pub(crate) fn state<'a>(words: &[&'a [u8]], at: usize) -> Result<Content<'a>, Misread>
    ensures { StateRead (texts_of words.now) at result }
{
    let word = word(words, at);
    if is_blank(word) {
        Ok(Content::Blank)
    } else if is_damaged(word) {
        Ok(Content::Damaged)
    } else {
        Err(Misread::State(at))
    }
}
