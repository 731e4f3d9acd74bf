//! Simple identifiers of Verilog.
ghost use Rattle.std.specs.Prelude.{◌≡◌};
ghost use Rattle.std.specs.List.{list_all};
ghost use Rattle.bist_text.specs.Identifiers.{begins_identifier, in_identifier, is_identifier};

/// Whether a byte begins an identifier: a letter or `_`.
pub fn begins_identifier(c: u8) -> bool
    ensures { result ≡ begins_identifier c }
{
    (b'a' <= c && c <= b'z') || (b'A' <= c && c <= b'Z') || c == b'_'
}

/// Whether a byte stands in an identifier: a letter, a digit, `_` or `$`.
pub fn in_identifier(c: u8) -> bool
    ensures { result ≡ in_identifier c }
{
    begins_identifier(c) || (b'0' <= c && c <= b'9') || c == b'$'
}

fn all_in_identifier(bytes: &[u8]) -> bool
    ensures { result ≡ list_all in_identifier bytes.now }
{
    for c in bytes {
        if !in_identifier(*c) {
            return false;
        }
    }
    true
}

/// Whether these bytes are a simple identifier.
pub fn is_identifier(bytes: &[u8]) -> bool
    ensures { result ≡ is_identifier bytes.now }
{
    match bytes {
        [] => false,
        [first, rest @ ..] => begins_identifier(*first) && all_in_identifier(rest),
    }
}
