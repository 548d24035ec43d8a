//! The kinds of bytes in a line.

ghost use Rattle.std.specs.Prelude.{◌≡◌};
ghost use Rattle.asm_syntax.specs.Bytes.{is_blank, is_word_byte, is_plain, escape_value};

/// A space or a tab.
pub(crate) fn is_blank(byte: u8) -> bool
    ensures { result ≡ is_blank byte }
{
    byte == b' ' || byte == b'\t'
}

/// A byte of names and numbers: a letter, a digit, `_` or `.`.
pub(crate) fn is_word_byte(byte: u8) -> bool
    ensures { result ≡ is_word_byte byte }
{
    byte.is_ascii_alphanumeric() || byte == b'_' || byte == b'.'
}

/// A byte that may stand in a string, from the space to `~`.
pub(crate) fn is_plain(byte: u8) -> bool
    ensures { result ≡ is_plain byte }
{
    (b' '..=b'~').contains(&byte)
}

/// What an escape stands for, by the byte after its `\`.
pub(crate) fn escape_value(byte: u8) -> Option<u8>
    ensures { result ≡ escape_value byte }
{
    match byte {
        b'n' => Some(b'\n'),
        b't' => Some(b'\t'),
        b'0' => Some(0),
        b'\\' => Some(b'\\'),
        b'"' => Some(b'"'),
        _ => None,
    }
}
