use crate::records::{Found, Kind, Name};

// The reading rule of section 3, over the list of all records of a chip.

// The newest of the headers and markers of an object, if it is a header: the object is a present file then.
pub fn header(list: &[Found], object: u32) -> Option<Found> {
    let mut newest: Option<Found> = None;
    for one in list {
        if one.object == object && !one.kind.is_data() && is_newer(one, newest) {
            newest = Some(*one);
        }
    }
    newest.filter(|one| one.kind.is_header())
}

// Whether a record is newer than one that there may be.
fn is_newer(one: &Found, other: Option<Found>) -> bool {
    match other {
        Some(other) => one.serial > other.serial,
        None => true,
    }
}

// Whether a marker or a cut header hides a data record.
fn hides(one: &Found, other: &Found) -> bool {
    let Kind::Data { chunk, .. } = other.kind else {
        return false
    };
    let reaches = match one.kind {
        Kind::Marker => true,
        Kind::Cut { length } => chunk > length,
        Kind::Data { .. } | Kind::Header { .. } => false,
    };
    reaches && one.object == other.object && one.serial > other.serial
}

// Chunk j of a present file, if it is not missing.
pub fn chunk(list: &[Found], object: u32, j: u32) -> Option<Found> {
    let mut newest: Option<Found> = None;
    for one in list {
        if one.object == object && number(one) == Some(j) && is_newer(one, newest) {
            newest = Some(*one);
        }
    }
    let newest = newest?;
    for one in list {
        if hides(one, &newest) {
            return None;
        }
    }
    Some(newest)
}

// The chunk number of a data record.
fn number(one: &Found) -> Option<u32> {
    match one.kind {
        Kind::Data { chunk, .. } => Some(chunk),
        Kind::Header { .. } | Kind::Cut { .. } | Kind::Marker => None,
    }
}

// Whether a record is a chunk of a present file.
fn is_chunk(list: &[Found], one: &Found) -> bool {
    let Some(j) = number(one) else { return false };
    if header(list, one.object).is_none() {
        return false;
    }
    match chunk(list, one.object, j) {
        Some(newest) => newest.serial == one.serial,
        None => false,
    }
}

// The length of a present file.
pub fn length(list: &[Found], object: u32) -> Option<u32> {
    let mut most = match header(list, object)?.kind {
        Kind::Header { length } | Kind::Cut { length } => length,
        Kind::Data { .. } | Kind::Marker => 0,
    };
    for one in list {
        if one.object == object && is_chunk(list, one) {
            most = most.max(number(one).unwrap_or(0));
        }
    }
    Some(most)
}

// The size of a present file in bytes.
pub fn size(list: &[Found], object: u32) -> Option<u64> {
    let length = length(list, object)?;
    let Some(before) = length.checked_sub(1) else {
        return Some(0)
    };
    let last = match chunk(list, object, length) {
        Some(
            Found {
                kind: Kind::Data { count, .. },
                ..
            },
        ) => count,
        _ => 2048,
    };
    Some(before as u64 * 2048 + last as u64)
}

// How many chunks the files use: one for each header, and one for each chunk that is not missing.
pub fn uses(list: &[Found]) -> u64 {
    let mut count: u64 = 0;
    for object in 257..512 {
        if header(list, object).is_some() {
            count = count.saturating_add(1);
        }
    }
    for (i, one) in list.iter().enumerate() {
        if is_chunk(list, one) && !is_copy(list, i, one) {
            count = count.saturating_add(1);
        }
    }
    count
}

// Whether an equal record stands before row i.
fn is_copy(list: &[Found], i: usize, one: &Found) -> bool {
    for other in list.iter().take(i) {
        if other.serial == one.serial {
            return true;
        }
    }
    false
}

// The present file with a name.
pub fn find(list: &[Found], name: &Name) -> Option<u32> {
    for object in 257..512 {
        if let Some(one) = header(list, object) {
            if one.name == Some(*name) {
                return Some(object);
            }
        }
    }
    None
}

// The present file with a name, other than one object.
pub fn find_other(list: &[Found], name: &Name, but: u32) -> Option<u32> {
    for object in 257..512 {
        if let Some(one) = header(list, object) {
            if object != but && one.name == Some(*name) {
                return Some(object);
            }
        }
    }
    None
}

pub fn is_wanted(list: &[Found], one: &Found) -> bool {
    match one.kind {
        Kind::Data { .. } => is_chunk(list, one),
        Kind::Header { .. } => is_newest_header(list, one),
        Kind::Cut { .. } => is_newest_header(list, one) || hides_any(list, one),
        Kind::Marker => is_newest_marker(list, one) && has_older(list, one),
    }
}

fn is_newest_header(list: &[Found], one: &Found) -> bool {
    match header(list, one.object) {
        Some(newest) => newest.serial == one.serial,
        None => false,
    }
}

fn hides_any(list: &[Found], one: &Found) -> bool {
    for other in list {
        if hides(one, other) {
            return true;
        }
    }
    false
}

fn is_newest_marker(list: &[Found], one: &Found) -> bool {
    for other in list {
        if other.kind == Kind::Marker && other.object == one.object && other.serial > one.serial {
            return false;
        }
    }
    true
}

fn has_older(list: &[Found], one: &Found) -> bool {
    for other in list {
        if other.object == one.object && other.serial < one.serial {
            return true;
        }
    }
    false
}
