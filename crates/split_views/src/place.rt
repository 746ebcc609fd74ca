// The place of a page in one of two buffers.

// Where a page starts.
#[derive(Clone, Copy, PartialEq, Eq, Debug)]
pub enum Place {
    // In the first buffer.
    Rom(usize),
    // In the second.
    Ram(usize),
}
