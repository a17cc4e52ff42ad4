//! What walking over entries takes of a file's room.

/// The bytes that take a word.
const BYTES_A_WORD: usize = 8;

/// The words for walking from one place to another. The same bytes are walked over more than once: functions can stand
/// within one another, several skeletons can lead to one unit, and many entries refer to one.
pub(crate) fn walk_words(from: usize, to: usize) -> u64 {
    1 + (to.saturating_sub(from) / BYTES_A_WORD) as u64
}
