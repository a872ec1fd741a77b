use replays::{Files, Machine};
use std::alloc::{AllocError, Global};
use std::process::Abort;
use std::test::Fail;

// One file, whatever its name: a read takes it off the shelf.
#[derive(Drop)]
pub(crate) struct Shelf {
    pub heap: Global,
    pub bytes: Option<Vec<u8>>,
}

impl Files for Shelf {
    fn read(&mut self, _: &str) -> Option<Vec<u8>> {
        self.bytes.take()
    }

    fn write(&mut self, _: &str, bytes: &[u8]) -> bool {
        self.bytes = Vec::from_slice(self.heap, bytes).ok();
        self.bytes.is_some()
    }
}

// No files at all.
#[derive(Drop)]
pub(crate) struct Nothing;

impl Files for Nothing {
    fn read(&mut self, _: &str) -> Option<Vec<u8>> {
        None
    }

    fn write(&mut self, _: &str, _: &[u8]) -> bool {
        false
    }
}

// What a line is answered.
fn answer(machine: &mut Machine, shelf: &mut Shelf, line: &str) -> Result<String, AllocError> {
    let mut out = String::new(shelf.heap);
    machine.play(shelf.heap, line, shelf, &mut out)?;
    Ok(out)
}

fn compare(
    rt: &impl Abort,
    machine: &mut Machine,
    shelf: &mut Shelf,
    table: &str,
) -> Result<(), Fail> {
    for line in table.lines() {
        let (call, said) = line.split_once(" => ").ok_or("a line with no answer")?;
        let told = answer(machine, shelf, call)?;
        assert_eq!(rt; told.as_str().trim_end(), said, "{}", call);
    }
    Ok(())
}

// Each line of the table is answered as it stands behind the arrow.
pub(crate) fn plays(
    rt: &(impl Abort + AllocGlobal),
    bytes: Option<Vec<u8>>,
    table: &str,
) -> Result<(), Fail> {
    let heap = rt.alloc();
    let mut machine = Machine::new();
    let mut shelf = Shelf { heap, bytes };
    let compared = compare(rt, &mut machine, &mut shelf, table);
    machine.end();
    compared
}
