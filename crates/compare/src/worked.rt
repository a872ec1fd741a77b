use crate::calls::{Answer, Call, Text};
use crate::cases::{
    CASE, Case, Cases, SETTING, SURE, Setting, Step, cost, create, cut, no, place, put, read,
    rename, tag, text,
};
use bench::Plan;
use flash::{Act, Place, Sizes, Tag};
use naive::Refusal;

// The cases of section 10.

const DONE: Answer = Answer::Done;

const SIZE: Call = Call::Size { object: 257 };

const OPEN: Call = Call::Open { object: 257 };

const CLOSE: Call = Call::Close { object: 257 };

const DELETE: Call = Call::Delete { object: 257 };

const COLLECT_0: Step = (
    Call::Collect,
    Answer::Cleaned {
        block: 0,
        copies: 2,
    },
);

macro_rules! failed {
    ($act:expr) => {
        Answer::Refused(Refusal::Failed($act))
    };
}

const FIRST_RECORDS: Case = Case {
    first: &[
        (Call::Mount, DONE),
        (create!(257, text!(1, b'a')), cost!(1, 0)),
        (OPEN, DONE),
        (put!(257, 1, 5), cost!(1, 0)),
        (SIZE, Answer::Size(5)),
        (read!(257, 0, 9), Answer::Count(5)),
    ],
    wanted: &[
        (place!(0, 0), tag!(0xC000_0001, 0x1000_0101, 0, 1)),
        (place!(0, 1), tag!(1, 257, 5, 2)),
    ],
    ..CASE
};

const STRETCH_CUT_AWAY: Case = Case {
    first: &[
        (Call::Mount, DONE),
        (create!(257, text!(1, b'a')), cost!(1, 0)),
        (OPEN, DONE),
        (put!(257, 1, 2048), cost!(1, 0)),
        (put!(257, 2, 2048), cost!(1, 0)),
        (put!(257, 3, 2048), cost!(1, 0)),
        (cut!(257, 1), cost!(1, 0)),
        (SIZE, Answer::Size(2048)),
        (put!(257, 3, 9), cost!(1, 0)),
        (SIZE, Answer::Size(4105)),
        (read!(257, 2000, 4096), Answer::Count(2105)),
        (read!(257, 4105, 9), Answer::Count(0)),
        (Call::Mount, DONE),
        (SIZE, Answer::Size(4105)),
    ],
    wanted: &[
        (place!(1, 0), tag!(0xC000_0001, 0x1000_0101, 1, 5)),
        (place!(1, 1), tag!(3, 257, 9, 6)),
    ],
    ..CASE
};

// Only the marker is wanted: with a new header in chunk 3 a collect makes two copies.
const DELETED: Case = Case {
    first: &[
        (Call::Mount, DONE),
        (create!(257, text!(1, b'a')), cost!(1, 0)),
        (OPEN, DONE),
        (put!(257, 1, 5), cost!(1, 0)),
        (CLOSE, DONE),
        (DELETE, cost!(1, 0)),
        (SIZE, no!(20)),
        (Call::List { rows: 0 }, Answer::Count(0)),
        (
            Call::Find {
                name: text!(1, b'a'),
            },
            Answer::Object(None),
        ),
        (create!(258, text!(1, b'b')), cost!(1, 0)),
        COLLECT_0,
    ],
    wanted: &[
        (place!(1, 0), tag!(0xC000_0004, 0x1000_0101, 0, 3)),
        (place!(1, 1), tag!(0xC000_0001, 0x1000_0102, 0, 4)),
    ],
    ..CASE
};

// The erase leaves only record 2, at (0,1): chunks 0, 2 and 3 take their new content.
const FAILED_ERASE: Case = Case {
    setting: Setting {
        plan: Plan {
            fails: 7,
            damages: 0,
            takes: 13,
        },
        ..SETTING
    },
    first: &[
        (Call::Mount, DONE),
        (create!(257, text!(1, b'a')), cost!(1, 0)),
        (OPEN, DONE),
        (put!(257, 1, 5), cost!(1, 0)),
        (put!(257, 2, 5), cost!(1, 0)),
        (cut!(257, 0), cost!(1, 0)),
        (put!(257, 2, 9), cost!(1, 0)),
        (Call::Collect, failed!(Act::Erasing(0))),
        (SIZE, no!(15)),
        (Call::Mount, DONE),
        (SIZE, Answer::Size(2057)),
        (read!(257, 0, 4096), Answer::Count(2057)),
        (Call::List { rows: 1 }, Answer::Count(1)),
    ],
    wanted: &[
        (place!(0, 1), tag!(1, 257, 5, 2)),
        (place!(1, 1), tag!(0xC000_0001, 0x1000_0101, 0, 4)),
    ],
    ..CASE
};

const CUT_HEADER_THAT_HIDES: Case = Case {
    first: &[
        (Call::Mount, DONE),
        (create!(257, text!(1, b'a')), cost!(1, 0)),
        (OPEN, DONE),
        (put!(257, 1, 5), cost!(1, 0)),
        (cut!(257, 0), cost!(1, 0)),
        (CLOSE, DONE),
        (rename!(257, text!(1, b'b')), cost!(1, 0)),
        (OPEN, DONE),
        (put!(257, 2, 5), cost!(1, 0)),
        (SIZE, Answer::Size(2053)),
        COLLECT_0,
        (SIZE, Answer::Size(2053)),
    ],
    wanted: &[
        (place!(1, 0), tag!(2, 257, 5, 5)),
        (place!(1, 1), tag!(0xC000_0001, 0x1000_0101, 0, 3)),
        (place!(1, 2), tag!(0x8000_0001, 0x1000_0101, 0, 4)),
    ],
    ..CASE
};

// Create and chunks 1 to 6, and chunk 6 again.
const FILLING: &[Step] = &[
    (Call::Mount, DONE),
    (create!(257, text!(1, b'a')), cost!(1, 0)),
    (OPEN, DONE),
    (put!(257, 1, 2048), cost!(1, 0)),
    (put!(257, 2, 2048), cost!(1, 0)),
    (put!(257, 3, 2048), cost!(1, 0)),
    (put!(257, 4, 2048), cost!(1, 0)),
    (put!(257, 5, 2048), cost!(1, 0)),
    (put!(257, 6, 2048), cost!(1, 0)),
    (put!(257, 7, 2048), no!(27)),
    (put!(257, 6, 7), cost!(1, 0)),
];

const LIMIT: Case = Case {
    first: FILLING,
    wanted: &[(place!(1, 3), tag!(6, 257, 7, 8))],
    ..CASE
};

const CLEANING: Case = Case {
    first: FILLING,
    then: &[
        (create!(258, text!(1, b'b')), no!(27)),
        (put!(257, 6, 8), cost!(4, 1)),
        (SIZE, Answer::Size(5 * 2048 + 8)),
    ],
    wanted: &[(place!(2, 3), tag!(6, 257, 8, 9))],
    ..CASE
};

// The third copy, act 11, fails and is damaged.
const COSTLIEST_PUT: Case = Case {
    setting: Setting {
        plan: Plan {
            fails: 11,
            damages: u64::MAX,
            takes: 0,
        },
        ..SETTING
    },
    first: FILLING,
    then: &[
        (put!(257, 6, 8), failed!(Act::Copying(place!(2, 2)))),
        (Call::Mount, DONE),
        (put!(257, 6, 8), no!(24)),
        (OPEN, DONE),
        (put!(257, 6, 8), cost!(4, 2)),
    ],
    wanted: &[(place!(2, 3), tag!(6, 257, 8, 9))],
    ..CASE
};

const EDGES: Case = Case {
    first: &[
        (Call::Mount, DONE),
        (create!(257, text!(40, b'a')), cost!(1, 0)),
        (create!(258, text!(41, b'a')), no!(19)),
        (create!(256, text!(1, b'b')), no!(16)),
        (create!(512, text!(1, b'b')), no!(16)),
        (OPEN, DONE),
        (put!(257, 0, 1), no!(17)),
        (put!(257, 1001, 1), no!(17)),
        (put!(257, 1000, 1), cost!(1, 0)),
        (SIZE, Answer::Size(999 * 2048 + 1)),
    ],
    ..CASE
};

const TWO_BLOCKS: Case = Case {
    setting: Setting {
        sizes: Sizes {
            blocks: 2,
            chunks: 4,
        },
        plan: SURE,
    },
    first: &[(Call::Mount, no!(9)), (Call::Format, no!(9))],
    ..CASE
};

const ALL: [Case; 10] = [
    FIRST_RECORDS,
    STRETCH_CUT_AWAY,
    DELETED,
    FAILED_ERASE,
    CUT_HEADER_THAT_HIDES,
    LIMIT,
    CLEANING,
    COSTLIEST_PUT,
    EDGES,
    TWO_BLOCKS,
];

pub fn run_worked(cases: &mut Cases<'_>) -> anyhow::Result<()> {
    for case in &ALL {
        cases.run(case)?;
    }
    Ok(())
}
