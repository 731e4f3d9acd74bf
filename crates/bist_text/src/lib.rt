//! Reading and writing texts byte by byte: sets of bytes, cursors, lines and numbers, and in `specs/` what a
//! grammar is, and when a reader answers exactly as its grammar says.
//!
//! ```
//! use bist_text::{ByteSet, Cursor, decimal};
//!
//! let blank = ByteSet { low: 1 << 32, high: 0 };
//! let mut cursor = Cursor::new(b"  x");
//! cursor.skip(blank);
//! assert!(rt; cursor.place() == 2 && cursor.peek() == Some(b'x'));
//! assert!(rt; decimal(b"0042") == Some(42));
//! ```
//!
//! It never knows the grammar of a whole text: of Verilog it has identifiers and the reserved words, of lines blanks, comments and
//! the classes of their words, and of texts of lines that the first with content gives a version.
#![tactic(auto)]

mod between;
mod byte_set;
pub mod byte_sets;
mod cursors;
mod identifiers;
pub mod keyed_lines;
mod keywords;
mod numbers;
mod reserved_words;
mod text_lines;
mod writing;

pub use between::{put_between, put_number_between};
pub use byte_set::ByteSet;
pub use cursors::Cursor;
pub use identifiers::{begins_identifier, in_identifier, is_identifier};
pub use keywords::{Keyword, Letters, Spelled, first_letter, next_letter};
pub use numbers::{decimal, hex, put_decimal, put_hex, put_word};
pub use reserved_words::is_reserved;
pub use text_lines::{Line, Lines};
pub use writing::put;
