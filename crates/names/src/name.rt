ghost use Rattle.std.specs.Prelude.{◌≡◌, ◌≤◌, cond, length, Some, None};
ghost use Rattle.rules.specs.Lists.{within};

use rules::{LONGEST_NAME, is_name};
use std::marker::Model;

// The name of a present file, 1 to 40 bytes. They lie in an array with their count, since `Names::new` alone takes
// memory; the bytes past the count are 0.
#[derive(Clone, Copy)]
pub(crate) struct Name {
    count: u8,
    bytes: [u8; LONGEST_NAME],
}

// Clauses see the bytes of the name.
impl Model for Name {
    ghost use Rattle.std.specs.Prelude.{◌≡◌, ℕ, ◌-◌, ◌≤◌, ◌++◌, List, length, take, replicate, true};
    ghost use Rattle.rules.specs.Lists.{within};

    ghost Value = { List ℕ };

    ghost view = { λ n. take n.count n.bytes };

    ghost invariant = { λ n. (within 1 40 n.count ≡ true) × (length n.bytes ≡ 40) × (n.bytes ≡ take n.count n.bytes ++ replicate (40 - n.count) 0) };

    ghost inverse = { λ name. record { count = length name; bytes = name ++ replicate (40 - length name) 0 } };
}

impl Name {
    ghost use Rattle.names.specs.Names.{name_from};

    // The name of these bytes, if they are one.
    pub(crate) fn new(bytes: &[u8]) -> Option<Name>
        ensures { result ≡ cond (within 1 40 (length bytes.now)) (Some bytes.now) None }
    {
        if !is_name(bytes) {
            return None;
        }
        let mut kept = [0; LONGEST_NAME];
        kept[..bytes.len()].copy_from_slice(bytes);
        Some(Name {
            count: bytes.len() as u8,
            bytes: kept,
        })
    }

    // The name that a header's data begins with: the first byte tells how many bytes after it.
    pub(crate) fn of_header(bytes: &[u8]) -> Option<Name>
        requires { 41 ≤ length bytes.now }
        ensures { result ≡ name_from bytes.now }
    {
        let (count, rest) = bytes.split_first()?;
        Name::new(rest.get(..*count as usize)?)
    }

    pub(crate) fn as_slice(&self) -> &[u8]
        ensures { result.now ≡ self.now }
    {
        &self.bytes[..self.count as usize]
    }
}
