use crate::tests::shelves::plays;
use std::test::Fail;

// The cases that docs/RULES.md works by hand, on three blocks of four. The answers follow from the rules, and none is
// copied from the program.

#[test]
fn first_records(rt: HostRuntime) -> Result<(), Fail> {
    plays(
        &rt,
        None,
        "\
bench 3 4  # a blank chip, off => ok
attach => ok
create 257 61 => refused 15
mount => ok
create 257 61 => ok 1 0
put 257 1 68656c6c6f => no ticket
open 257 => ok 257
open 257 => refused 23
put 257 1 68656C6C6F => ok 1 0
size 257 => ok 5
list 3 => ok 1 257,1,5
list 0 => refused 29
find 61 => ok 257
find 62 => ok none
read 257 0 8 => ok 5 68656c6c6faaaaaa
read 257 2 2 => ok 2 6c6c
read 257 5 0 => ok 0 -
close 257 => ok
close 257 => no ticket
collect => refused 28
chip.sizes => no chip
release => ok
size 257 => no store
chip.sizes => ok 3 4
chip.look 0 0 => ok 3221225473 268435713 0 1
chip.look 0 1 => ok 1 257 5 2
chip.look 0 2 => ok blank
chip.look 3 0 => refused 5
chip.fetch 0 2 => refused 8
",
    )
}

// Length 3, chunk 2 missing, size 4,105.
#[test]
fn a_stretch_cut_away(rt: HostRuntime) -> Result<(), Fail> {
    plays(
        &rt,
        None,
        "\
bench 3 4 => ok
attach => ok
mount => ok
create 257 61 => ok 1 0
open 257 => ok 257
put 257 1 2048x11 => ok 1 0
put 257 2 2048x22 => ok 1 0
put 257 3 2048x33 => ok 1 0
cut 257 3 => refused 25
cut 257 1 => ok 1 0
put 257 3 9x44 => ok 1 0
size 257 => ok 4105
list 1 => ok 1 257,3,4105
read 257 2046 4 => ok 4 11110000
read 257 0xfff 12 => ok 10 00444444444444444444aaaa
delete 257 => refused 23
rename 257 62 => refused 23
close 257 => ok
rename 257 62 => ok 1 0
find 61 => ok none
find 62 => ok 257
delete 257 => ok 1 0
size 257 => refused 20
list 0 => ok 0
",
    )
}

// The limit, and then a cleaning: block 1 has the least load, its three wanted records go to block 2.
#[test]
fn a_cleaning(rt: HostRuntime) -> Result<(), Fail> {
    plays(
        &rt,
        None,
        "\
bench 3 4 => ok
attach => ok
mount => ok
create 257 61 => ok 1 0
open 257 => ok 257
put 257 1 01 => ok 1 0
put 257 2 02 => ok 1 0
put 257 3 03 => ok 1 0
put 257 4 04 => ok 1 0
put 257 5 05 => ok 1 0
put 257 6 06 => ok 1 0
put 257 7 07 => refused 27
put 257 6 16 => ok 1 0
put 257 6 26 => ok 4 1
read 257 10240 1 => ok 1 26
release => ok
chip.look 1 0 => ok blank
chip.look 2 3 => ok 6 257 1 9
",
    )
}

// The third copy fails and is damaged; after a mount the put costs 4 programs and 2 erases.
#[test]
fn the_costliest_put(rt: HostRuntime) -> Result<(), Fail> {
    plays(
        &rt,
        None,
        "\
bench 3 4 11 4 0 => ok
attach => ok
mount => ok
create 257 61 => ok 1 0
open 257 => ok 257
put 257 1 01 => ok 1 0
put 257 2 02 => ok 1 0
put 257 3 03 => ok 1 0
put 257 4 04 => ok 1 0
put 257 5 05 => ok 1 0
put 257 6 06 => ok 1 0
put 257 6 16 => ok 1 0
put 257 6 26 => refused 7 copying 2 2
put 257 6 26 => refused 15
mount => ok
put 257 6 26 => refused 24
open 257 => ok 257
put 257 6 26 => ok 4 2
close 257 => ok
close 257 => refused 24
close 257 => no ticket
",
    )
}

// Only record 2 is left in block 0: length 2, chunk 1 missing.
#[test]
fn a_failed_erase(rt: HostRuntime) -> Result<(), Fail> {
    plays(
        &rt,
        None,
        "\
bench 3 4 7 0 13 => ok
attach => ok
mount => ok
create 257 61 => ok 1 0
open 257 => ok 257
put 257 1 01 => ok 1 0
put 257 2 02 => ok 1 0
cut 257 0 => ok 1 0
put 257 2 7x22 => ok 1 0
collect => refused 7 erasing 0
mount => ok
list 1 => ok 1 257,2,2055
read 257 0 1 => ok 1 00
collect => ok 0 0
release => ok
chip.look 0 1 => ok blank
chip.look 1 1 => ok 3221225473 268435713 0 4
",
    )
}

#[test]
fn edges(rt: HostRuntime) -> Result<(), Fail> {
    plays(
        &rt,
        None,
        "\
bench 3 4 => ok
attach => ok
mount => ok
create 257 40x61 => ok 1 0
create 258 41x61 => refused 19
create 258 - => refused 19
create 256 61 => refused 16
create 512 61 => refused 16
open 257 => ok 257
put 257 0 01 => refused 17
put 257 1001 01 => refused 17
put 257 1 2049x01 => refused 18
put 257 1 - => refused 18
format => ok
mount => ok
list 0 => ok 0
bench 2 4 => ok
mount => no store
attach => ok
mount => refused 9
format => refused 9
",
    )
}

// A record that breaks the rules, and two that clash, with their places.
#[test]
fn bad_contents(rt: HostRuntime) -> Result<(), Fail> {
    plays(
        &rt,
        None,
        "\
bench 3 4 => ok
chunk 0 0 0xC0000001 0x10000101 0 1 0161 => ok
chunk 0 1 1 257 5 2 68656c6c6f => ok
chunk 2 3 1001 257 5 3 68656c6c6f => ok
attach => ok
mount => refused 10 2 3
release => ok
chunk 2 3 1 257 5 2 68656c6c => ok
attach => ok
mount => refused 11 2 3
release => ok
chunk 2 3 damaged => ok
attach => ok
mount => ok
list 1 => ok 1 257,1,5
",
    )
}
