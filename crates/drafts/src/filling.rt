ghost use Rattle.std.specs.Prelude.{◌≡◌, ◌≤◌, length};
ghost use Rattle.rules.specs.Calls.{padded, name_bytes};
ghost use Rattle.drafts.specs.Drafts.{IsName};

use rules::{CHUNK_BYTES, LONGEST_NAME};

// What an unused data byte is.
const UNUSED: u8 = 0;

// Data that begin with these bytes.
pub(crate) fn padded(bytes: &[u8]) -> [u8; CHUNK_BYTES]
    ensures { length bytes.now ≤ 2048 → result ≡ padded 2048 bytes.now }
{
    let count = bytes.len().min(CHUNK_BYTES);
    let mut filled = [UNUSED; CHUNK_BYTES];
    filled[..count].copy_from_slice(&bytes[..count]);
    filled
}

// Data that begin with the length of a name, and the name.
pub(crate) fn name_bytes(name: &[u8]) -> [u8; CHUNK_BYTES]
    ensures { IsName name.now → result ≡ name_bytes 2048 name.now }
{
    let count = name.len().min(LONGEST_NAME);
    let mut filled = [UNUSED; CHUNK_BYTES];
    filled[0] = count as u8;
    filled[1..=count].copy_from_slice(&name[..count]);
    filled
}
