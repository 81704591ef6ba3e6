//! The tokens of a line.
ghost use Rattle.std.specs.Prelude.{◌≡◌};
ghost use Rattle.script_lex.specs.Forms.{symbol_bytes};

use rep_values::Text;

/// `: , = != < <= > >= +`
#[derive(Clone, Copy, Debug, PartialEq, Eq)]
pub enum Symbol {
    Colon,
    Comma,
    Eq,
    Ne,
    Lt,
    Le,
    Gt,
    Ge,
    Plus,
}

impl Symbol {
    /// The one or two bytes that write it.
    pub fn bytes(&self) -> &'static [u8]
        ensures { result.now ≡ symbol_bytes self.now }
    {
        match self {
            Symbol::Colon => b":",
            Symbol::Comma => b",",
            Symbol::Eq => b"=",
            Symbol::Ne => b"!=",
            Symbol::Lt => b"<",
            Symbol::Le => b"<=",
            Symbol::Gt => b">",
            Symbol::Ge => b">=",
            Symbol::Plus => b"+",
        }
    }
}

/// A word, a number of at most 16 digits with its sign, a text between quotes, or a symbol.
#[derive(Clone, Copy)]
pub enum Token {
    Word(Text),
    Number { minus: bool, size: u64 },
    Words(Text),
    Symbol(Symbol),
}
