//! Bytes: readers, orders that are handed in and checked, lists whose looks are counted, a map that only grows, paths,
//! and how much a file may make its reader keep and read again.
#![tactic(auto)]

mod align_up;
mod by_std_sort;
mod counted;
mod cursor;
mod dir_path;
mod insert_map;
mod leb128;
mod orders;
mod path_text;
mod places;
mod ranked;
mod read_raw;
mod room;

pub use align_up::{align_up_u32, align_up_usize};
pub use blz_records::{ByteOrder, Pod};
pub use by_std_sort::ByStdSort;
pub use counted::{Counted, Steps};
pub use cursor::Cursor;
pub use dir_path::DirPath;
pub use insert_map::InsertMap;
pub use leb128::{sleb_at, uleb_at};
pub use orders::{AsTheyStand, Key, NameSpan, Orders};
pub use path_text::bytes_to_path;
pub use places::{number_at, piece_at, u8_at, u16_at, u32_at, u64_at, zero_ended_at};
pub use ranked::{check_names, check_pairs};
pub use read_raw::ReadRaw;
pub use room::{LEAST_WORDS, Room, WORDS_A_BYTE};
