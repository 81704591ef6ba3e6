//! What the words of the command line ask for.
ghost use Rattle.std.specs.Prelude.{◌≡◌, map};
ghost use Rattle.script_desk.specs.Words.{asked_by, asked_of};

/// What the program is asked to do with a script.
#[derive(Clone, Copy, Debug, PartialEq, Eq)]
pub enum Asked {
    /// `lint`
    Lint,
    /// `picture`
    Picture,
    /// `explain`
    Explain,
}

/// What one word asks for.
fn asked_of(word: &str) -> Option<Asked>
    ensures { result ≡ asked_of word.now }
{
    let word = word.as_bytes();
    if word == b"lint".as_slice() {
        return Some(Asked::Lint);
    }
    if word == b"picture".as_slice() {
        return Some(Asked::Picture);
    }
    if word == b"explain".as_slice() {
        return Some(Asked::Explain);
    }
    None
}

/// What the words behind the program's name ask for: one of the words that it knows, and nothing behind it. None for all other words.
pub fn asked_by(words: &[&str]) -> Option<Asked>
    ensures { result ≡ asked_by (map (λ word. word.now) words.now) }
{
    match words {
        [word] => asked_of(word),
        _ => None,
    }
}
