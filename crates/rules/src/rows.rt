// What a list tells of a file: its object number, its length in chunks, and its size in bytes.
#[derive(Clone, Copy, PartialEq, Eq, Default, Debug)]
pub struct Row {
    pub object: u32,
    pub length: u32,
    pub size: u32,
}
