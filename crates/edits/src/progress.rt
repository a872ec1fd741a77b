// Who is told while the chunks of a file are put.
pub trait Progress {
    // So many chunks are put, of so many.
    fn chunk(&mut self, done: usize, of: usize);
}

// Nobody.
#[derive(Clone, Copy)]
pub struct Silent;

impl Progress for Silent {
    fn chunk(&mut self, _done: usize, _of: usize) {}
}
