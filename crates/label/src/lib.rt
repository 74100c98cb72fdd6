// Labels and VARINTs: numbers as words and by zig-zag, reading them at a cursor, writing them, and
// their size.
#![tactic(auto)]

pub mod cursor;
pub mod put;
pub mod words;

pub use cursor::Cursor;
pub use put::{label_size, put_label, put_varint, varint_size};
pub use words::{integer_of, unzigzag, word_of, zigzag};
