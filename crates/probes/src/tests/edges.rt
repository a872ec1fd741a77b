use crate::tests::chips::{BLANK, CUT, HEAD, MARK, MOST, raw, tag, verdict};
use flash::Place;
use scan::Refusal;
use std::process::Abort;
use std::test::Fail;

// The lowest and the highest object number as headers and markers have it, written out as the numbers in `chips` are.
const LOW: u32 = 0x1000_0101;

const HIGH: u32 = 0x1000_01FF;

// The four numbers of a record and the byte of its data: a tuple, since a constant can call no function, and a `Tag` spelled
// out would take six lines a row.
type Case = (u32, u32, u32, u32, u8);

// Records that keep the table of section 2, each at the edge of one of its rules.
const KEPT: [Case; 19] = [
    (1, 257, 1, 1, 0),
    (1000, 257, 1, 1, 41),
    (1, 511, 1, 1, 0),
    (1, 257, 2048, 1, 0),
    (1, 257, 1, MOST, 0),
    (HEAD, LOW, 0, 1, 1),
    (HEAD, HIGH, 0, 1, 1),
    (HEAD, LOW, 1000, 1, 1),
    (HEAD, LOW, 0, MOST, 1),
    (HEAD, LOW, 0, 1, 40),
    (CUT, LOW, 0, 1, 1),
    (CUT, HIGH, 0, 1, 1),
    (CUT, LOW, 1000, 1, 1),
    (CUT, LOW, 0, MOST, 1),
    (CUT, LOW, 0, 1, 40),
    (MARK, LOW, 0, 1, 0),
    (MARK, HIGH, 0, 1, 0),
    (MARK, LOW, 0, MOST, 0),
    (MARK, LOW, 0, 1, 41),
];

// Records that break one rule of it each.
const BROKEN: [Case; 39] = [
    (0, 257, 1, 1, 1),
    (1001, 257, 1, 1, 1),
    (1, 256, 1, 1, 1),
    (1, 512, 1, 1, 1),
    (1, LOW, 1, 1, 1),
    (1, 257, 0, 1, 1),
    (1, 257, 2049, 1, 1),
    (1, 257, MOST, 1, 1),
    (1, 257, 1, 0, 1),
    (HEAD, LOW - 1, 0, 1, 1),
    (HEAD, HIGH + 1, 0, 1, 1),
    (HEAD, 257, 0, 1, 1),
    (HEAD, LOW, 1001, 1, 1),
    (HEAD, LOW, MOST, 1, 1),
    (HEAD, LOW, 0, 0, 1),
    (HEAD, LOW, 0, 1, 0),
    (HEAD, LOW, 0, 1, 41),
    (HEAD, LOW, 0, 1, 255),
    (CUT, LOW - 1, 0, 1, 1),
    (CUT, HIGH + 1, 0, 1, 1),
    (CUT, 257, 0, 1, 1),
    (CUT, LOW, 1001, 1, 1),
    (CUT, LOW, 0, 0, 1),
    (CUT, LOW, 0, 1, 0),
    (CUT, LOW, 0, 1, 41),
    (MARK, LOW - 1, 0, 1, 1),
    (MARK, HIGH + 1, 0, 1, 1),
    (MARK, 257, 0, 1, 1),
    (MARK, LOW, 1, 1, 1),
    (MARK, LOW, 0, 0, 1),
    (HEAD - 1, LOW, 0, 1, 1),
    (HEAD + 1, LOW, 0, 1, 1),
    (CUT - 1, LOW, 0, 1, 1),
    (CUT + 1, LOW, 0, 1, 1),
    (MARK - 1, LOW, 0, 1, 1),
    (MARK + 1, LOW, 0, 1, 1),
    (0x8000_0004, LOW, 0, 1, 1),
    (0x4000_0001, LOW, 0, 1, 1),
    (MOST, LOW, 0, 1, 1),
];

// What mount answers on a chip of three blocks of two that has this record alone.
fn alone(
    rt: &(impl Abort + AllocGlobal),
    case: Case,
    place: Place,
) -> Result<Result<(), Refusal>, Fail> {
    let (first, second, third, serial, byte) = case;
    let mut rows = [BLANK; 6];
    // written out, as the numbers in `chips` are
    let row = place.block as usize * 2 + place.chunk as usize;
    assert!(rt; row < 6);
    rows[row] = raw(tag(first, second, third, serial), byte);
    verdict(rt, 3, 2, &rows)
}

// What mount answers on each of these records, at the last place and at the first.
fn each_alone<F: Fn(Place) -> Result<(), Refusal>>(
    rt: &(impl Abort + AllocGlobal),
    cases: &[Case],
    answer: F,
) -> Result<(), Fail>
    requires { F.IsAlwaysCallable answer }
{
    for (i, case) in cases.iter().enumerate() {
        for place in [Place::new(2, 1), Place::new(0, 0)] {
            assert_eq!(rt; alone(rt, *case, place)?, answer(place), "{}", i);
        }
    }
    Ok(())
}

// A record alone that keeps the rules is accepted: at most one header is used, and two blocks are blank.
#[test]
fn kept(rt: HostRuntime) -> Result<(), Fail> {
    each_alone(&rt, &KEPT, |_| Ok(()))
}

// One that breaks a rule is refused by 10 with its place.
#[test]
fn broken(rt: HostRuntime) -> Result<(), Fail> {
    each_alone(&rt, &BROKEN, |place| Err(Refusal::BadRecord(place)))
}
