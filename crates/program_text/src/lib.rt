// What the programs of lab traces write, as bytes in a lent text: lines, and the name of a file beside another; and which argument is no file.
#![tactic(auto)]

mod lines;
mod parts;
mod words;

pub use lines::{Lines, gap_lines, has_room, long_line, stop_line, two_numbers};
pub use parts::{behind, front};
pub use words::{asks_help, asks_version, beside};
