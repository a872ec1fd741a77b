// A flash chip that lies in the bytes of an image file. Any other bytes are a chip with no blocks that is always
// on and leaves them as they are.
#[derive(Drop)]
pub struct ImageChip {
    pub(crate) bytes: Vec<u8>,
}
