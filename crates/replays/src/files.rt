// The files that a script names. Whoever plays it hands them over.
pub trait Files {
    // The bytes of a file, if it can be read.
    fn read(&mut self, name: &str) -> Option<Vec<u8>>;

    // Whether the bytes were written to a file.
    fn write(&mut self, name: &str, bytes: &[u8]) -> bool;
}
