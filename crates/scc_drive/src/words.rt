//! The words of a command.
ghost use Rattle.std.specs.Prelude.{◌≡◌, ◌≤◌, ◌+◌, length, drop, take};
ghost use Rattle.scc_drive_spec.specs.Words.{word_at};

/// A word, empty where there is none.
pub fn word(words: &[String], i: usize) -> &str
    ensures { result.now ≡ word_at words.now i }
{
    match words.get(i) {
        Some(w) => w.as_str(),
        None => "",
    }
}

/// The words that name files: so many from word 2 on.
pub fn roots(words: &[String], count: usize) -> &[String]
    requires { count + 2 ≤ length words.now }
    ensures { result.now ≡ take count (drop 2 words.now) }
{
    let rest = &words[2..];
    &rest[..count]
}
