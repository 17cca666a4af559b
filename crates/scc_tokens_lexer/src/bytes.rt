//! Classes of bytes (C++, "Preprocessing tokens").
ghost use Rattle.std.specs.Prelude.{◌≡◌};
ghost use Rattle.scc_tokens_lexer.specs.Bytes.{is_blank, is_digit, is_letter, is_word_byte, is_number_byte, is_printable};

/// A space, a tab or a carriage return.
pub fn is_blank(b: u8) -> bool
    ensures { result ≡ is_blank b }
{
    b == b' ' || b == b'\t' || b == b'\r'
}

/// A decimal digit.
pub fn is_digit(b: u8) -> bool
    ensures { result ≡ is_digit b }
{
    b.is_ascii_digit()
}

/// What an identifier may begin with: a letter or an underscore.
pub fn is_letter(b: u8) -> bool
    ensures { result ≡ is_letter b }
{
    b.is_ascii_alphabetic() || b == b'_'
}

/// What an identifier may go on with.
pub fn is_word_byte(b: u8) -> bool
    ensures { result ≡ is_word_byte b }
{
    is_letter(b) || is_digit(b)
}

/// What a number may go on with: a letter, a digit or a point.
pub fn is_number_byte(b: u8) -> bool
    ensures { result ≡ is_number_byte b }
{
    b.is_ascii_alphabetic() || is_digit(b) || b == b'.'
}

/// A byte that may stand in a text.
pub fn is_printable(b: u8) -> bool
    ensures { result ≡ is_printable b }
{
    (32..=126).contains(&b)
}
