// What is said to those who ask.
use swf_text::Bytes;

/// A piece that was said: to which connection, its bytes, and how many inputs had been taken before it.
#[derive(Drop)]
pub struct Piece {
    pub conn: u64,
    pub bytes: Bytes,
    pub inputs: u64,
}
