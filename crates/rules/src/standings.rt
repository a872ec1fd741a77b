// How a block stands.
#[derive(Clone, Copy, PartialEq, Eq, Debug)]
pub enum Standing {
    Blank,
    Open,
    Closed,
}

// What moves a block on: its first program, its last chunk taken, an erase, and mount, which finds all its
// chunks blank or not.
#[derive(Clone, Copy, PartialEq, Eq, Debug)]
pub enum Event {
    Opened,
    Filled,
    Erased,
    Mounted { blank: bool },
}
