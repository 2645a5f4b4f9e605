ghost use Rattle.std.specs.Prelude.{◌≡◌};
ghost use Rattle.nim_lex.specs.Bytes.{is_blank, is_name_byte};

/// Space, tab or carriage return.
pub fn is_blank(b: u8) -> bool
    ensures { result ≡ is_blank b }
{
    matches!(b, b' ' | b'\t' | b'\r')
}

/// A letter, a digit or an underscore.
pub fn is_name_byte(b: u8) -> bool
    ensures { result ≡ is_name_byte b }
{
    b.is_ascii_alphanumeric() || b == b'_'
}
