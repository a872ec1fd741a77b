use crate::tests::shelves::plays;
use std::test::Fail;

#[test]
fn misreads(rt: HostRuntime) -> Result<(), Fail> {
    plays(
        &rt,
        None,
        "\
Mount => no such call
chip.size => no such call
mount 1 => wrong number of operands
bench 3 => wrong number of operands
bench 3 4 1 => wrong number of operands
bench x 4 => operand 1 is not a number of 32 bits
bench 3 4294967296 => operand 2 is not a number of 32 bits
bench 3 0x100000000 => operand 2 is not a number of 32 bits
bench 3 0x => operand 2 is not a number of 32 bits
bench 3 1f => operand 2 is not a number of 32 bits
bench 3 +1 => operand 2 is not a number of 32 bits
plan 18446744073709551615 0 18446744073709551616 => operand 3 is not a number of 64 bits
read 257 0xFFFFFFFFFFFFFFFFF 1 => operand 2 is not a number of 64 bits
create 257 6 => operand 2 is not data
create 257 6g => operand 2 is not data
create 257 x61 => operand 2 is not data
create 257 1x6 => operand 2 is not data
create 257 1x6g => operand 2 is not data
create 257 -- => operand 2 is not data
put x y z => operand 1 is not a number of 32 bits
put 1 y z => operand 2 is not a number of 32 bits
put 1 2 z => operand 3 is not data
chunk 0 0 Blank => operand 3 is neither blank nor damaged
chunk 0 0 1 2 3 4294967296 - => operand 6 is not a number of 32 bits
chip.program 0 0 1 2 3 4 x => operand 7 is not data
",
    )
}
