//! The first words of commands.
ghost use Rattle.std.specs.Prelude.{◌≡◌, ℕ, List, ◌∷◌};
ghost use Rattle.script_lex.specs.Lexemes.{lexeme_token};
ghost use Rattle.script_words.specs.Words.{chosen, choice_of, entries};
ghost use Rattle.script_parse.specs.Heads.{heads};

use script_lex::Lexeme;
use script_words::choice_of;

/// The first word of a declaration.
#[derive(Clone, Copy, Debug, PartialEq, Eq)]
pub enum Declaring {
    Site,
    LateSite,
    SnapSite,
    Table,
    Group,
    Method,
    Priority,
    SiteLevel,
    Unique,
    UniqueMethod,
    Check,
    Convergent,
}

/// The first word of a line about procedures.
#[derive(Clone, Copy, Debug, PartialEq, Eq)]
pub enum ProcHead {
    Table,
    Procedure,
    Calls,
    Call,
    Send,
    Push,
    Fates,
    Execute,
}

/// The first word of a command.
#[derive(Clone, Copy, Debug, PartialEq, Eq)]
pub enum Head {
    Declare(Declaring),
    Snapshot,
    Subsnapshot,
    Row,
    Resume,
    Insert,
    Update,
    Delete,
    Txn,
    Commit,
    Abandon,
    Push,
    Fate,
    Link,
    Clock,
    Purge,
    Execute,
    DropError,
    Refresh,
    PurgeLog,
    Suspend,
    Join,
    Show,
    Procedures(ProcHead),
}

// The command words by the letter that they begin with. A line is read by its word, so few of them are looked at.

const A_HEADS: [(&[u8], Head); 1] = [(b"abandon", Head::Abandon)];

const C_HEADS: [(&[u8], Head); 6] = [
    (b"check", Head::Declare(Declaring::Check)),
    (b"convergent", Head::Declare(Declaring::Convergent)),
    (b"commit", Head::Commit),
    (b"clock", Head::Clock),
    (b"calls", Head::Procedures(ProcHead::Calls)),
    (b"call", Head::Procedures(ProcHead::Call)),
];

const D_HEADS: [(&[u8], Head); 2] = [(b"delete", Head::Delete), (b"drop-error", Head::DropError)];

const E_HEADS: [(&[u8], Head); 2] = [
    (b"execute", Head::Execute),
    (b"execute-calls", Head::Procedures(ProcHead::Execute)),
];

const F_HEADS: [(&[u8], Head); 2] = [
    (b"fate", Head::Fate),
    (b"fate-calls", Head::Procedures(ProcHead::Fates)),
];

const G_HEADS: [(&[u8], Head); 1] = [(b"group", Head::Declare(Declaring::Group))];

const I_HEADS: [(&[u8], Head); 1] = [(b"insert", Head::Insert)];

const J_HEADS: [(&[u8], Head); 1] = [(b"join", Head::Join)];

const L_HEADS: [(&[u8], Head); 2] = [
    (b"latesite", Head::Declare(Declaring::LateSite)),
    (b"link", Head::Link),
];

const M_HEADS: [(&[u8], Head); 1] = [(b"method", Head::Declare(Declaring::Method))];

const P_HEADS: [(&[u8], Head); 7] = [
    (b"priority", Head::Declare(Declaring::Priority)),
    (b"push", Head::Push),
    (b"purge", Head::Purge),
    (b"purge-log", Head::PurgeLog),
    (b"proctable", Head::Procedures(ProcHead::Table)),
    (b"procedure", Head::Procedures(ProcHead::Procedure)),
    (b"push-calls", Head::Procedures(ProcHead::Push)),
];

const R_HEADS: [(&[u8], Head); 3] = [
    (b"row", Head::Row),
    (b"resume", Head::Resume),
    (b"refresh", Head::Refresh),
];

const S_HEADS: [(&[u8], Head); 8] = [
    (b"site", Head::Declare(Declaring::Site)),
    (b"snapsite", Head::Declare(Declaring::SnapSite)),
    (b"site-level", Head::Declare(Declaring::SiteLevel)),
    (b"snapshot", Head::Snapshot),
    (b"subsnapshot", Head::Subsnapshot),
    (b"suspend", Head::Suspend),
    (b"show", Head::Show),
    (b"send", Head::Procedures(ProcHead::Send)),
];

const T_HEADS: [(&[u8], Head); 2] = [
    (b"table", Head::Declare(Declaring::Table)),
    (b"txn", Head::Txn),
];

const U_HEADS: [(&[u8], Head); 3] = [
    (b"unique", Head::Declare(Declaring::Unique)),
    (b"unique-method", Head::Declare(Declaring::UniqueMethod)),
    (b"update", Head::Update),
];

/// The command words that begin with a byte: what begins so is found among them where it is found among all.
fn heads_at(first: u8) -> &'static [(&'static [u8], Head)]
    ensures { (rest : List ℕ) → chosen (entries result.now) (first ∷ rest) ≡ chosen heads (first ∷ rest) }
{
    match first {
        b'a' => &A_HEADS,
        b'c' => &C_HEADS,
        b'd' => &D_HEADS,
        b'e' => &E_HEADS,
        b'f' => &F_HEADS,
        b'g' => &G_HEADS,
        b'i' => &I_HEADS,
        b'j' => &J_HEADS,
        b'l' => &L_HEADS,
        b'm' => &M_HEADS,
        b'p' => &P_HEADS,
        b'r' => &R_HEADS,
        b's' => &S_HEADS,
        b't' => &T_HEADS,
        b'u' => &U_HEADS,
        _ => &[],
    }
}

/// The command word that the token is, if it is one.
pub fn head_of(lexeme: Lexeme<'_>) -> Option<Head>
    ensures { result ≡ choice_of heads (lexeme_token lexeme.entry) }
{
    match lexeme {
        Lexeme::Word(bytes) => match bytes.split_first() {
            Some((first, _)) => choice_of(heads_at(*first), lexeme),
            None => None,
        },
        Lexeme::Number { .. } | Lexeme::Words(_) | Lexeme::Symbol(_) => None,
    }
}
