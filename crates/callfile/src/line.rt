// A line as it comes in, byte by byte. It takes the same room however long the line is.
use arrayvec::ArrayVec;

mod gather;

// No form is longer.
pub const LONGEST_LINE: usize = 120;

// The bytes since the buffer was cleared, or nothing if they are more than 120.
#[derive(Drop)]
pub struct LineBuffer {
    bytes: Option<ArrayVec<u8, LONGEST_LINE>>,
}
