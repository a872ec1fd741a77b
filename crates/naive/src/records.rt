use flash::{Place, Record, Tag};

// A file's name: its length, and its bytes with 0 behind them.
#[derive(Clone, Copy, PartialEq, Eq, Debug)]
pub struct Name {
    pub length: u8,
    pub bytes: [u8; 40],
}

// The kinds of section 2, each with its own numbers.
#[derive(Clone, Copy, PartialEq, Eq, Debug)]
pub enum Kind {
    Data { chunk: u32, count: u32 },
    Header { length: u32 },
    Cut { length: u32 },
    Marker,
}

// A record of a chip: where it stands and what it says.
#[derive(Clone, Copy, PartialEq, Eq, Debug)]
pub struct Found {
    pub place: Place,
    pub object: u32,
    pub kind: Kind,
    pub serial: u32,
    pub name: Option<Name>,
}

pub fn is_object(number: u32) -> bool {
    257 <= number && number <= 511
}

impl Name {
    // The name of these bytes, if they are 1 to 40.
    pub fn new(text: &[u8]) -> Option<Name> {
        let length = u8::try_from(text.len()).ok()?;
        if length < 1 || length > 40 {
            return None;
        }
        let mut bytes = [0; 40];
        for (to, from) in bytes.iter_mut().zip(text) {
            *to = *from;
        }
        Some(Name { length, bytes })
    }

    // The name in a header's data bytes, if its length is 1 to 40.
    fn of_header(data: &[u8; 2048]) -> Option<Name> {
        let (length, rest) = data.split_first()?;
        Name::new(rest.get(..*length as usize)?)
    }

    // The data bytes of a header with this name.
    pub fn header_bytes(&self) -> [u8; 2048] {
        let mut data = [0; 2048];
        data[0] = self.length;
        for (to, from) in data.iter_mut().skip(1).zip(&self.bytes) {
            *to = *from;
        }
        data
    }
}

impl Kind {
    pub fn is_data(self) -> bool {
        matches!(self, Kind::Data { .. })
    }

    pub fn is_header(self) -> bool {
        matches!(self, Kind::Header { .. } | Kind::Cut { .. })
    }

    // The first and the third number of a record of this kind.
    fn numbers(self) -> (u32, u32) {
        match self {
            Kind::Data { chunk, count } => (chunk, count),
            Kind::Header { length } => (0x8000_0001, length),
            Kind::Cut { length } => (0xC000_0001, length),
            Kind::Marker => (0xC000_0004, 0),
        }
    }

    // The four numbers of a record of this kind.
    pub fn tag(self, object: u32, serial: u32) -> Tag {
        let (first, third) = self.numbers();
        let second = if self.is_data() {
            object
        } else {
            object.saturating_add(0x1000_0000)
        };
        Tag {
            first,
            second,
            third,
            serial,
        }
    }
}

// The kind and the object that the numbers say, if the table of section 2 has them.
fn read_tag(tag: &Tag) -> Option<(Kind, u32)> {
    let Tag {
        first,
        second,
        third,
        serial,
    } = *tag;
    if serial == 0 {
        return None;
    }
    let data = 1 <= first && first <= 1000;
    let object = if data {
        second
    } else {
        second.checked_sub(0x1000_0000)?
    };
    if !is_object(object) {
        return None;
    }
    let kind = if data {
        Kind::Data {
            chunk: first,
            count: third,
        }
    } else if first == 0x8000_0001 {
        Kind::Header { length: third }
    } else if first == 0xC000_0001 {
        Kind::Cut { length: third }
    } else if first == 0xC000_0004 {
        Kind::Marker
    } else {
        return None;
    };
    let third_fits = match kind {
        Kind::Data { .. } => 1 <= third && third <= 2048,
        Kind::Header { .. } | Kind::Cut { .. } => third <= 1000,
        Kind::Marker => third == 0,
    };
    if third_fits {
        Some((kind, object))
    } else {
        None
    }
}

impl Found {
    // What the record at a place says, unless it breaks the table.
    pub fn read(place: Place, record: &Record) -> Option<Found> {
        let (kind, object) = read_tag(&record.tag)?;
        let name = if kind.is_header() {
            Some(Name::of_header(&record.bytes)?)
        } else {
            None
        };
        Some(Found {
            place,
            object,
            kind,
            serial: record.tag.serial,
            name,
        })
    }
}
