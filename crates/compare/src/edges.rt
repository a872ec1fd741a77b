use crate::calls::{Answer, Call, Text};
use crate::cases::{
    Bit, CASE, Case, Cases, SETTING, SURE, Setting, cost, create, cut, no, place, put, read,
    rename, tag, text,
};
use bench::Plan;
use flash::{Act, Place, Sizes, Tag};
use naive::Refusal;

// Each refusal of the store at its edges.

const DONE: Answer = Answer::Done;

const HEAD: u32 = 0x8000_0001;

const CUT: u32 = 0xC000_0001;

const MARKER: u32 = 0xC000_0004;

const F257: u32 = 0x1000_0101;

const F258: u32 = 0x1000_0102;

const F259: u32 = 0x1000_0103;

const NAME: Text = text!(1, b'a');

const OTHER: Text = text!(1, b'b');

const OPEN: Call = Call::Open { object: 257 };

const CLOSE: Call = Call::Close { object: 257 };

macro_rules! at {
    ($number:expr, $block:expr, $chunk:expr) => {
        Answer::Refused(Refusal::At($number, place!($block, $chunk)))
    };
}

macro_rules! cleaned {
    ($block:expr, $copies:expr) => {
        Answer::Cleaned {
            block: $block,
            copies: $copies,
        }
    };
}

// 9: the sizes that are taken, and those next to them.
const SIZES: [(u32, u32, Answer); 14] = [
    (2, 4, no!(9)),
    (3, 1, no!(9)),
    (3, 2, DONE),
    (3, 64, DONE),
    (3, 65, no!(9)),
    (64, 2, DONE),
    (65, 2, no!(9)),
    (64, 32, DONE),
    (64, 33, no!(9)),
    (32, 64, DONE),
    (0, 0, no!(9)),
    (0, 5, no!(9)),
    (5, 0, no!(9)),
    (1, 1, no!(9)),
];

// Records at the edges of the table, each with its first data byte.
const GOOD: [(Tag, u8); 8] = [
    (tag!(1, 257, 1, 1), 0),
    (tag!(1000, 511, 2048, u32::MAX), 0),
    (tag!(HEAD, F257, 0, 1), 1),
    (tag!(HEAD, 0x1000_01FF, 1000, 2), 40),
    (tag!(CUT, F257, 0, 1), 40),
    (tag!(CUT, 0x1000_01FF, 1000, 2), 1),
    (tag!(MARKER, F257, 0, 1), 0),
    (tag!(MARKER, 0x1000_01FF, 0, u32::MAX), 255),
];

// 10: records that break it.
const BAD: [(Tag, u8); 26] = [
    (tag!(0, 257, 1, 1), 1),
    (tag!(1001, 257, 1, 1), 1),
    (tag!(1, 256, 1, 1), 1),
    (tag!(1, 512, 1, 1), 1),
    (tag!(1, F257, 1, 1), 1),
    (tag!(1, 257, 0, 1), 1),
    (tag!(1, 257, 2049, 1), 1),
    (tag!(1, 257, 1, 0), 1),
    (tag!(HEAD, 257, 0, 1), 1),
    (tag!(HEAD, 0x1000_0100, 0, 1), 1),
    (tag!(HEAD, 0x1000_0200, 0, 1), 1),
    (tag!(HEAD, F257, 1001, 1), 1),
    (tag!(HEAD, F257, 0, 0), 1),
    (tag!(HEAD, F257, 0, 1), 0),
    (tag!(HEAD, F257, 0, 1), 41),
    (tag!(HEAD, F257, 0, 1), 255),
    (tag!(CUT, F257, 1001, 1), 1),
    (tag!(CUT, F257, 0, 1), 0),
    (tag!(CUT, F257, 0, 1), 41),
    (tag!(CUT, 0xFFFF_FFFF, 0, 1), 1),
    (tag!(MARKER, F257, 1, 1), 1),
    (tag!(MARKER, 257, 0, 1), 1),
    (tag!(0x8000_0004, F257, 0, 1), 1),
    (tag!(0xC000_0002, F257, 0, 1), 1),
    (tag!(0x8000_0000, F257, 0, 1), 1),
    (tag!(u32::MAX, F257, 0, 1), 1),
];

const FINE: Bit = Bit::Record(tag!(1, 257, 1, 9), [0; 3]);

// 11: a record, and unlike records of its serial.
const ONE: Bit = Bit::Record(tag!(5, 257, 7, 3), [1, 2, 0]);

const UNLIKE: [Bit; 7] = [
    Bit::Record(tag!(6, 257, 7, 3), [1, 2, 0]),
    Bit::Record(tag!(5, 258, 7, 3), [1, 2, 0]),
    Bit::Record(tag!(5, 257, 8, 3), [1, 2, 0]),
    Bit::Record(tag!(5, 257, 7, 3), [0, 2, 0]),
    Bit::Record(tag!(5, 257, 7, 3), [1, 2, 1]),
    Bit::Record(tag!(HEAD, F257, 7, 3), [1, 2, 0]),
    Bit::Record(tag!(MARKER, F257, 0, 3), [1, 2, 0]),
];

const BROKEN: Bit = Bit::Record(tag!(0, 0, 0, 0), [0; 3]);

// 12: names, old and new, of present files and deleted ones.
const A: Bit = Bit::Record(tag!(HEAD, F257, 0, 1), [1, b'a', 0]);

const ALSO_A: Bit = Bit::Record(tag!(CUT, F258, 0, 2), [1, b'a', b'b']);

const LONGER: Bit = Bit::Record(tag!(HEAD, F258, 0, 3), [2, b'a', b'b']);

const GONE: Bit = Bit::Record(tag!(MARKER, F258, 0, 4), [0; 3]);

const LATER_A: Bit = Bit::Record(tag!(HEAD, F258, 0, u32::MAX), [1, b'a', 0]);

const NAMES: [(&[Bit], Answer); 6] = [
    (&[A, ALSO_A], no!(12)),
    (&[A, ALSO_A, LONGER], DONE),
    (&[A, LONGER, ALSO_A], DONE),
    (&[A, LONGER, LATER_A], no!(12)),
    (&[A, ALSO_A, GONE], DONE),
    (&[A, ALSO_A, GONE, LATER_A], no!(12)),
];

// 13 and 14 on three blocks of two: the files may use 3 chunks.
const NONE: Bit = Bit::Blank;

const HURT: Bit = Bit::Damaged;

const B: Bit = Bit::Record(tag!(HEAD, F258, 0, 2), [1, b'b', 0]);

const C: Bit = Bit::Record(tag!(HEAD, F259, 0, 3), [1, b'c', 0]);

const D1: Bit = Bit::Record(tag!(1, 257, 9, 11), [7, 0, 0]);

const D2: Bit = Bit::Record(tag!(2, 257, 9, 12), [7, 0, 0]);

const D3: Bit = Bit::Record(tag!(3, 257, 9, 13), [7, 0, 0]);

const D4: Bit = Bit::Record(tag!(4, 257, 9, 14), [7, 0, 0]);

const D5: Bit = Bit::Record(tag!(5, 257, 9, 15), [7, 0, 0]);

const SMALL: Setting = Setting {
    sizes: Sizes {
        blocks: 3,
        chunks: 2,
    },
    plan: SURE,
};

const FULL: [(&[Bit], Answer); 13] = [
    (&[A, D1, D2, NONE, NONE, NONE], DONE),
    (&[A, D1, D2, D3, NONE, NONE], no!(13)),
    (&[A, D1, D2, D2, NONE, NONE], DONE),
    (&[A, D1, D2, D3, D4, D5], no!(13)),
    (&[A, D1, B, D2, NONE, NONE], no!(13)),
    (&[A, HURT, B, HURT, C, HURT], no!(14)),
    (&[A, NONE, B, NONE, C, NONE], no!(14)),
    (&[A, HURT, B, HURT, C, C], no!(14)),
    (&[A, HURT, B, C, C, HURT], DONE),
    (&[A, B, B, HURT, C, NONE], DONE),
    (&[A, HURT, B, HURT, HURT, HURT], DONE),
    (&[A, HURT, B, HURT, HURT, NONE], DONE),
    (&[A, HURT, B, HURT, C, D1], no!(13)),
];

// 15, and a close of a stopped store.
const STOPPED: [Call; 11] = [
    Call::Collect,
    create!(257, NAME),
    create!(0, text!(0, 0)),
    rename!(257, NAME),
    Call::Delete { object: 257 },
    Call::Open { object: 257 },
    Call::Find { name: NAME },
    Call::Name { object: 257 },
    Call::Size { object: 256 },
    read!(257, 0, 9),
    Call::List { rows: 0 },
];

const FAILED: Case = Case {
    setting: Setting {
        plan: Plan {
            fails: 2,
            damages: 0,
            takes: 0,
        },
        ..SETTING
    },
    first: &[
        (Call::Mount, DONE),
        (create!(257, NAME), cost!(1, 0)),
        (OPEN, DONE),
        (
            put!(257, 1, 1),
            Answer::Refused(Refusal::Failed(Act::Adding(place!(0, 1)))),
        ),
        (put!(257, 0, 0), no!(15)),
        (cut!(257, 1001), no!(15)),
        (OPEN, no!(15)),
        (CLOSE, DONE),
        (Call::Mount, DONE),
        (OPEN, DONE),
        (Call::Format, DONE),
        (CLOSE, no!(24)),
        (Call::Size { object: 257 }, no!(15)),
        (Call::Mount, DONE),
        (Call::List { rows: 0 }, Answer::Count(0)),
    ],
    ..CASE
};

// 16 to 19, and the smallest number first.
const ARGUMENTS: Case = Case {
    first: &[
        (Call::Mount, DONE),
        (create!(256, text!(41, 1)), no!(16)),
        (create!(512, NAME), no!(16)),
        (create!(257, text!(0, 0)), no!(19)),
        (create!(257, text!(257, 1)), no!(19)),
        (create!(257, text!(296, 1)), no!(19)),
        (create!(257, NAME), cost!(1, 0)),
        (create!(257, text!(41, 1)), no!(19)),
        (rename!(256, text!(0, 0)), no!(16)),
        (rename!(257, text!(0, 0)), no!(19)),
        (rename!(258, text!(41, 0)), no!(19)),
        (rename!(258, NAME), no!(20)),
        (Call::Open { object: 256 }, no!(16)),
        (Call::Delete { object: 512 }, no!(16)),
        (
            Call::Size {
                object: 0x1000_0101,
            },
            no!(16),
        ),
        (read!(u32::MAX, 0, 1), no!(16)),
        (Call::Find { name: text!(0, 0) }, no!(19)),
        (Call::Find { name: text!(41, 0) }, no!(19)),
        (Call::Find { name: text!(40, 0) }, Answer::Object(None)),
        (Call::Find { name: NAME }, Answer::Object(Some(257))),
        (OPEN, DONE),
        (put!(257, 0, 0), no!(17)),
        (put!(257, 1001, 2049), no!(17)),
        (put!(257, 1, 0), no!(18)),
        (put!(257, 1000, 2049), no!(18)),
        (put!(257, 1000, 2048), cost!(1, 0)),
        (cut!(257, 1001), no!(17)),
        (cut!(257, 1000), no!(25)),
        (cut!(257, 999), cost!(1, 0)),
        (cut!(257, 999), no!(25)),
        (read!(257, 0, 9000), Answer::Count(9000)),
        (read!(257, 999 * 2048 - 1, 9), Answer::Count(1)),
        (read!(257, 999 * 2048, 9), Answer::Count(0)),
        (read!(257, u64::MAX, 9), Answer::Count(0)),
    ],
    ..CASE
};

// 20 to 24, and 29.
const FILES: Case = Case {
    first: &[
        (Call::Mount, DONE),
        (OPEN, no!(20)),
        (Call::Delete { object: 257 }, no!(20)),
        (Call::Size { object: 511 }, no!(20)),
        (Call::Name { object: 257 }, no!(20)),
        (read!(257, 0, 0), no!(20)),
        (create!(257, NAME), cost!(1, 0)),
        (create!(258, NAME), no!(22)),
        (create!(258, OTHER), cost!(1, 0)),
        (create!(258, OTHER), no!(21)),
        (create!(258, NAME), no!(21)),
        (rename!(258, NAME), no!(22)),
        (Call::Open { object: 258 }, DONE),
        (Call::Open { object: 258 }, no!(23)),
        (rename!(258, NAME), no!(22)),
        (rename!(258, OTHER), no!(23)),
        (Call::Delete { object: 258 }, no!(23)),
        (Call::Close { object: 258 }, DONE),
        (rename!(258, OTHER), cost!(1, 0)),
        (Call::Open { object: 258 }, DONE),
        (Call::Mount, DONE),
        (put!(258, 1, 0), no!(18)),
        (put!(258, 1, 1), no!(24)),
        (cut!(258, 0), no!(24)),
        (Call::Open { object: 258 }, DONE),
        (put!(258, 1, 1), cost!(1, 0)),
        (Call::Close { object: 258 }, DONE),
        (put!(258, 1, 1), no!(24)),
        (Call::Close { object: 258 }, no!(24)),
        (Call::List { rows: 1 }, no!(29)),
        (Call::List { rows: 0 }, no!(29)),
        (Call::List { rows: 2 }, Answer::Count(2)),
        (Call::List { rows: 3 }, Answer::Count(2)),
    ],
    ..CASE
};

// 26: the highest serial stands already; 25 comes before it and 27 after it.
const LAST_SERIAL: Case = Case {
    bits: &[Bit::Record(tag!(HEAD, F257, 2, u32::MAX - 1), [1, b'a', 0])],
    wanted: &[(place!(1, 0), tag!(1, 257, 1, u32::MAX))],
    first: &[
        (Call::Mount, DONE),
        (OPEN, DONE),
        (put!(257, 1, 1), cost!(1, 0)),
        (put!(257, 1, 1), no!(26)),
        (cut!(257, 2), no!(25)),
        (cut!(257, 1), no!(26)),
        (create!(258, NAME), no!(22)),
        (create!(258, OTHER), no!(26)),
        (CLOSE, DONE),
        (rename!(257, OTHER), no!(26)),
        (Call::Delete { object: 257 }, no!(26)),
        (Call::Delete { object: 258 }, no!(20)),
        (
            Call::Collect,
            Answer::Cleaned {
                block: 0,
                copies: 1,
            },
        ),
        (Call::Mount, DONE),
        (rename!(257, OTHER), no!(26)),
    ],
    ..CASE
};

// A serial is above the highest that stood when the call began, also where a cleaning of the call erases that record.
const ERASED_SERIAL: Case = Case {
    bits: &[
        Bit::Record(tag!(MARKER, F258, 0, 9), [0; 3]),
        HURT,
        HURT,
        HURT,
        A,
        HURT,
        HURT,
        HURT,
    ],
    first: &[
        (Call::Mount, DONE),
        (create!(258, OTHER), cost!(1, 1)),
        (Call::Mount, DONE),
        (Call::List { rows: 2 }, Answer::Count(2)),
    ],
    wanted: &[(place!(0, 0), tag!(CUT, F258, 0, 10))],
    ..CASE
};

// A load counts each serial once, and a collect copies it once.
const COPIES_IN_A_BLOCK: Case = Case {
    bits: &[A, A, HURT, A, B, C, HURT, HURT],
    first: &[
        (Call::Mount, DONE),
        (Call::Collect, cleaned!(0, 1)),
        (Call::Collect, cleaned!(1, 2)),
    ],
    wanted: &[
        (place!(2, 0), tag!(HEAD, F257, 0, 1)),
        (place!(2, 1), tag!(HEAD, F258, 0, 2)),
        (place!(2, 2), tag!(HEAD, F259, 0, 3)),
    ],
    ..CASE
};

// What stands in another block too makes no load.
const COPIES_IN_BLOCKS: Case = Case {
    bits: &[A, B, HURT, HURT, A, B, C, HURT],
    first: &[
        (Call::Mount, DONE),
        (Call::Collect, cleaned!(0, 0)),
        (Call::Collect, cleaned!(1, 3)),
    ],
    wanted: &[
        (place!(0, 0), tag!(HEAD, F257, 0, 1)),
        (place!(0, 2), tag!(HEAD, F259, 0, 3)),
    ],
    ..CASE
};

// 28: nothing closed, and only full blocks closed.
const NOTHING_TO_CLEAN: Case = Case {
    first: &[
        (Call::Mount, DONE),
        (Call::Collect, no!(28)),
        (create!(257, NAME), cost!(1, 0)),
        (Call::Collect, no!(28)),
        (OPEN, DONE),
        (put!(257, 1, 1), cost!(1, 0)),
        (put!(257, 2, 1), cost!(1, 0)),
        (put!(257, 3, 1), cost!(1, 0)),
        (Call::Collect, no!(28)),
        (put!(257, 4, 1), cost!(1, 0)),
        (Call::Collect, no!(28)),
        (put!(257, 3, 2), cost!(1, 0)),
        (
            Call::Collect,
            Answer::Cleaned {
                block: 0,
                copies: 3,
            },
        ),
    ],
    ..CASE
};

const ALL: [Case; 8] = [
    FAILED,
    ARGUMENTS,
    FILES,
    LAST_SERIAL,
    ERASED_SERIAL,
    COPIES_IN_A_BLOCK,
    COPIES_IN_BLOCKS,
    NOTHING_TO_CLEAN,
];

// What format and mount say of sizes.
fn run_sizes(cases: &mut Cases<'_>) -> anyhow::Result<()> {
    for (blocks, chunks, answer) in SIZES {
        let steps = [
            (Call::Format, answer),
            (Call::Collect, no!(15)),
            (Call::Mount, answer),
        ];
        let setting = Setting {
            sizes: Sizes { blocks, chunks },
            ..SETTING
        };
        cases.run_list(setting, &[], &steps)?;
    }
    Ok(())
}

// What mount says of the chunks of a chip.
fn mounts(
    cases: &mut Cases<'_>,
    setting: Setting,
    bits: &[Bit],
    answer: Answer,
) -> anyhow::Result<()> {
    cases.run_list(setting, bits, &[(Call::Mount, answer)])
}

fn run_bad_records(cases: &mut Cases<'_>) -> anyhow::Result<()> {
    for (tag, byte) in GOOD {
        let bits = [HURT, Bit::Record(tag, [byte, 0, 0])];
        mounts(cases, SETTING, &bits, DONE)?;
    }
    for (tag, byte) in BAD {
        let bad = Bit::Record(tag, [byte, 0, 0]);
        mounts(cases, SETTING, &[FINE, HURT, bad, bad], at!(10, 0, 2))?;
        let late = [FINE, FINE, FINE, FINE, FINE, bad];
        mounts(cases, SETTING, &late, at!(10, 1, 1))?;
    }
    Ok(())
}

fn run_clashes(cases: &mut Cases<'_>) -> anyhow::Result<()> {
    mounts(cases, SETTING, &[ONE, ONE, HURT, ONE, ONE, ONE], DONE)?;
    for other in UNLIKE {
        mounts(cases, SETTING, &[ONE, other, ONE], at!(11, 0, 1))?;
        let late = [ONE, NONE, ONE, ONE, other, ONE];
        mounts(cases, SETTING, &late, at!(11, 1, 0))?;
        let first = [HURT, other, other, ONE, other];
        mounts(cases, SETTING, &first, at!(11, 0, 3))?;
        // the smaller number comes first, wherever it is
        let both = [ONE, other, ONE, ONE, BROKEN];
        mounts(cases, SETTING, &both, at!(10, 1, 0))?;
    }
    Ok(())
}

pub fn run_edges(cases: &mut Cases<'_>) -> anyhow::Result<()> {
    run_sizes(cases)?;
    run_bad_records(cases)?;
    run_clashes(cases)?;
    for (bits, answer) in NAMES {
        mounts(cases, SETTING, bits, answer)?;
    }
    for (bits, answer) in FULL {
        mounts(cases, SMALL, bits, answer)?;
    }
    let steps = STOPPED.map(|call| (call, no!(15)));
    cases.run_list(SETTING, &[], &steps)?;
    for case in &ALL {
        cases.run(case)?;
    }
    Ok(())
}
