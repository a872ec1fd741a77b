ghost use Rattle.std.specs.Prelude.{◌≡◌, IfOk, map};
ghost use Rattle.scripts.specs.Splits.{is_blank, before_comment, words_of};

use std::alloc::{AllocError, Global};

fn is_blank(byte: u8) -> bool
    ensures { result ≡ is_blank byte }
{
    byte == b' ' || byte == b'\t'
}

// What stands before a comment.
fn before_comment(line: &[u8]) -> &[u8]
    ensures { result.now ≡ before_comment line.now }
{
    match line.iter().position(|byte| *byte == b'#') {
        Some(at) => &line[..at],
        None => line,
    }
}

// The words of a line, which blanks or tabs part, up to a comment.
pub(crate) fn words(heap: Global, line: &str) -> Result<Vec<&[u8]>, AllocError>
    ensures { IfOk result (λ v. map (λ x. x.now) v.items ≡ words_of line.now) }
{
    before_comment(line.as_bytes())
        .split(|byte| is_blank(*byte))
        .filter(|word| !word.is_empty())
        .collect(heap)
}
