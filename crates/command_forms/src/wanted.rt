//! What a form goes on with.

use std::fmt;

/// What a name is the name of.
#[derive(Clone, Copy, Debug, PartialEq, Eq)]
pub enum NameOf {
    Site,
    Table,
    Column,
    Group,
    Constraint,
    Check,
    PriorityGroup,
    Procedure,
}

impl NameOf {
    /// What has the name, in a word or two.
    pub fn word(self) -> &'static str {
        match self {
            NameOf::Site => "site",
            NameOf::Table => "table",
            NameOf::Column => "column",
            NameOf::Group => "group",
            NameOf::Constraint => "constraint",
            NameOf::Check => "check",
            NameOf::PriorityGroup => "priority group",
            NameOf::Procedure => "procedure",
        }
    }
}

/// As in `the name of a site`.
impl fmt::Display for NameOf {
    fn fmt<W: fmt::Write>(&self, f: &mut fmt::Formatter<W>) -> fmt::Result {
        f.write_str("the name of a ")?;
        f.write_str(self.word())
    }
}

/// What a form goes on with at a place.
#[derive(Clone, Copy, Debug)]
pub enum Wanted {
    /// A letter, then letters, digits and `_`.
    Name(NameOf),
    /// A number or a text.
    Value,
    /// A number, with or without a minus.
    Number,
    /// A number without a minus.
    Whole,
    /// One of these words or symbols.
    Words(&'static [&'static str]),
    /// Nothing more, or one of these words or symbols.
    End(&'static [&'static str]),
}

/// The words, each between backquotes and behind a comma but the first.
fn put_words<W: fmt::Write>(
    f: &mut fmt::Formatter<W>,
    words: &'static [&'static str],
) -> fmt::Result {
    let mut first = true;
    for word in words {
        if !first {
            f.write_str(", ")?;
        }
        first = false;
        f.write_char('`')?;
        f.write_str(word)?;
        f.write_char('`')?;
    }
    Ok(())
}

/// As in `a value, a number or a text between quotes`, without a verb.
impl fmt::Display for Wanted {
    fn fmt<W: fmt::Write>(&self, f: &mut fmt::Formatter<W>) -> fmt::Result {
        match self {
            Wanted::Name(of) => fmt::Display::fmt(of, f),
            Wanted::Value => f.write_str("a value, which is a number or a text between quotes"),
            Wanted::Number => f.write_str("a number"),
            Wanted::Whole => f.write_str("a number without a minus"),
            Wanted::Words(words) => match words {
                [word] => {
                    f.write_char('`')?;
                    f.write_str(word)?;
                    f.write_char('`')
                }
                _ => {
                    f.write_str("one of ")?;
                    put_words(f, words)
                }
            },
            Wanted::End(words) => {
                if !words.is_empty() {
                    put_words(f, words)?;
                    f.write_str(" or ")?;
                }
                f.write_str("the end of the line")
            }
        }
    }
}
