// How a load reads its sources.

/// How sources are read: in pieces of how many bytes, where no line is longer, and in at most how many threads,
/// the caller's among them. Neither changes an answer.
#[derive(Clone, Copy)]
pub struct ReadOptions {
    pub piece_size: usize,
    pub threads: u32,
}
