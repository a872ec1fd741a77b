use crate::bytes::Data;
use bench::Plan;
use flash::{Place, Sizes, Tag};

// What a chunk is set to.
#[derive(Clone, Copy)]
pub enum Content<'a> {
    Blank,
    Damaged,
    Holds { tag: Tag, data: Data<'a> },
}

// What makes a chip, or looks after it.
#[derive(Clone, Copy)]
pub enum Setup<'a> {
    Bench { sizes: Sizes, plan: Plan },
    Plan(Plan),
    Image { file: &'a [u8] },
    Chunk { at: Place, content: Content<'a> },
    Dump,
    Save { file: &'a [u8] },
}

// A call of the chip itself.
#[derive(Clone, Copy)]
pub enum ChipCall<'a> {
    Sizes,
    Look(Place),
    Fetch(Place),
    Program { at: Place, tag: Tag, data: Data<'a> },
    Erase { block: u32 },
    Restart,
}

// A call that begins, ends or tidies a store.
#[derive(Clone, Copy)]
pub enum Life {
    Attach,
    Release,
    Format,
    Mount,
    Collect,
}

// A call that changes a file, or opens or closes it.
#[derive(Clone, Copy)]
pub enum Change<'a> {
    Create {
        object: u32,
        name: Data<'a>,
    },
    Rename {
        object: u32,
        name: Data<'a>,
    },
    Delete {
        object: u32,
    },
    Open {
        object: u32,
    },
    Close {
        object: u32,
    },
    Put {
        object: u32,
        number: u32,
        bytes: Data<'a>,
    },
    Cut {
        object: u32,
        length: u32,
    },
}

// A question.
#[derive(Clone, Copy)]
pub enum Ask<'a> {
    Find {
        name: Data<'a>,
    },
    Size {
        object: u32,
    },
    List {
        rows: u32,
    },
    Read {
        object: u32,
        position: u64,
        length: u32,
    },
}

// A line of a script.
#[derive(Clone, Copy)]
pub enum Line<'a> {
    Setup(Setup<'a>),
    Chip(ChipCall<'a>),
    Life(Life),
    Change(Change<'a>),
    Ask(Ask<'a>),
}

// A record with its place.
#[derive(Clone, Copy)]
pub(crate) struct Recorded<'a> {
    pub at: Place,
    pub tag: Tag,
    pub data: Data<'a>,
}
