//! Parts of Verilog's trees, by their texts.

use arrayvec::ArrayString;
use verilog_tree::Name;

pub(crate) fn name(text: &str) -> Name {
    ArrayString::from(text).unwrap_or(ArrayString::new())
}
