//! Classes of words.
ghost use Rattle.std.specs.Prelude.{◌≡◌, ◌≤◌, bytes_eq};
ghost use Rattle.std.specs.List.{list_all};
ghost use Rattle.scc_drive_words.specs.Classes.{is_digit, is_letter, is_word_byte, is_top, is_plain, is_first, digit, count_of};

fn is_digit(b: u8) -> bool
    ensures { result ≡ is_digit b }
{
    b'0' <= b && b <= b'9'
}

fn is_letter(b: u8) -> bool
    ensures { result ≡ is_letter b }
{
    (b'A' <= b && b <= b'Z') || (b'a' <= b && b <= b'z') || b == b'_'
}

fn is_word_byte(b: u8) -> bool
    ensures { result ≡ is_word_byte b }
{
    is_digit(b) || is_letter(b)
}

fn are_word_bytes(bytes: &[u8]) -> bool
    ensures { result ≡ list_all is_word_byte bytes.now }
{
    bytes.iter().all(|b| is_word_byte(*b))
}

/// Whether a word may name a module: ASCII letters, digits and underscores, not beginning with a digit.
pub fn is_top(word: &[u8]) -> bool
    ensures { result ≡ is_top word.now }
{
    match word {
        [] => false,
        [first, rest @ ..] => is_letter(*first) && are_word_bytes(rest),
    }
}

/// Whether a word is no option: not empty, and not beginning with `-`.
pub fn is_plain(word: &[u8]) -> bool
    ensures { result ≡ is_plain word.now }
{
    match word {
        [] => false,
        [first, ..] => *first != b'-',
    }
}

fn is_first(b: u8) -> bool
    ensures { result ≡ is_first b }
{
    b'1' <= b && b <= b'9'
}

fn digit(b: u8) -> u32
    ensures is { result ≡ digit b }
    ensures small { result ≤ 207 }
{
    u32::from(b.saturating_sub(b'0'))
}

/// The number of a word that is a decimal from 1 to 1,000 without leading zero or sign.
pub fn count_of(word: &[u8]) -> Option<u32>
    ensures { result ≡ count_of word.now }
{
    match word {
        [a] => { if is_first(*a) { Some(digit(*a)) } else { None } }
        [a, b] => {
            if is_first(*a) && is_digit(*b) {
                Some(10 * digit(*a) + digit(*b))
            } else {
                None
            }
        }
        [a, b, c] => {
            if is_first(*a) && is_digit(*b) && is_digit(*c) {
                Some(100 * digit(*a) + 10 * digit(*b) + digit(*c))
            } else {
                None
            }
        }
        [a, b, c, d] => {
            if *a == b'1' && *b == b'0' && *c == b'0' && *d == b'0' {
                Some(1000)
            } else {
                None
            }
        }
        _ => None,
    }
}

/// Whether a word is the one that is wanted.
pub fn is_word(word: &[u8], wanted: &[u8]) -> bool
    ensures { result ≡ bytes_eq word.now wanted.now }
{
    word == wanted
}
