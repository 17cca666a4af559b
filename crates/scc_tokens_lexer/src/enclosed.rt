//! Where what a mark opened is closed again: texts, character literals and comments.
ghost use Rattle.std.specs.Prelude.{◌≡◌, ◌≤◌, length, IfSome, false};
ghost use Rattle.scc_tokens_lexer.specs.Enclosed.{text_end, comment_end};

/// How many bytes there are up to and with the first `quote` on this line before which no backslash keeps it.
pub fn text_end(quote: u8, bytes: &[u8]) -> Option<usize>
    ensures value { result ≡ text_end quote false bytes.now }
    ensures within { IfSome result (λ n. n ≤ length bytes.now) }
{
    let mut kept = false;
    for (i, b) in bytes.iter().enumerate() {
        if *b == b'\n' {
            return None;
        }
        if !kept && *b == quote {
            return Some(i + 1);
        }
        kept = !kept && *b == b'\\';
    }
    None
}

/// How many bytes there are up to and with the first `*/`.
pub fn comment_end(bytes: &[u8]) -> Option<usize>
    ensures value { result ≡ comment_end false bytes.now }
    ensures within { IfSome result (λ n. n ≤ length bytes.now) }
{
    let mut star = false;
    for (i, b) in bytes.iter().enumerate() {
        if star && *b == b'/' {
            return Some(i + 1);
        }
        star = *b == b'*';
    }
    None
}
