//! Names.
ghost use Rattle.std.specs.Prelude.{◌≡◌};
ghost use Rattle.verilog_tree.specs.Words.{is_name};

use crate::tree::Name;
use bist_text::{is_identifier, is_reserved};

/// Whether a name is a simple identifier that isn't reserved.
pub fn is_name(name: &Name) -> bool
    ensures { result ≡ is_name name.now.bytes }
{
    is_identifier(name.as_str().as_bytes()) && !is_reserved(name.as_str().as_bytes())
}
