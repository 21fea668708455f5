//! The outside as a trait sees it, and the words that every other crate shares: places in files, limits, lists whose
//! contents alone count. `specs/Files.antt` and `specs/Sink.antt` say what a read and a put mean.
#![tactic(auto)]

mod errors;
mod files;
mod limit;
mod lists;
mod pos;
mod sink;
mod text;

pub use errors::{Failed, FileEnd, NoMemory};
pub use files::Files;
pub use limit::{Limit, LimitKind};
pub use lists::{Bytes, Numbers};
pub use pos::Pos;
pub use sink::Sink;
pub use text::{ends_line, is_digit, is_letter, is_word_byte, next_place};
