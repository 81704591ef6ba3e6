//! The first words of commands.
ghost use Rattle.std.specs.Prelude.{◌≡◌};
ghost use Rattle.std.specs.Option.{option_map};
ghost use Rattle.script_lex.specs.Lexemes.{lexeme_token};
ghost use Rattle.script_words.specs.Words.{choice_of};
ghost use Rattle.script_parse.specs.Heads.{heads};
ghost use Rattle.command_forms.specs.Forms.{form_of_head};

use crate::Form;
use script_lex::Lexeme;
use script_words::choice_of;

/// Each command word with its form.
pub const COMMANDS: [(&[u8], Form); 42] = [
    (b"site", Form::Site),
    (b"latesite", Form::LateSite),
    (b"snapsite", Form::SnapSite),
    (b"table", Form::Table),
    (b"group", Form::Group),
    (b"method", Form::Method),
    (b"priority", Form::Priority),
    (b"site-level", Form::SiteLevel),
    (b"unique", Form::Unique),
    (b"unique-method", Form::UniqueMethod),
    (b"check", Form::Check),
    (b"convergent", Form::Convergent),
    (b"snapshot", Form::Snapshot),
    (b"subsnapshot", Form::Subsnapshot),
    (b"row", Form::Row),
    (b"resume", Form::Resume),
    (b"insert", Form::Insert),
    (b"update", Form::Update),
    (b"delete", Form::Delete),
    (b"txn", Form::Txn),
    (b"commit", Form::Commit),
    (b"abandon", Form::Abandon),
    (b"push", Form::Push),
    (b"fate", Form::Fate),
    (b"link", Form::Link),
    (b"clock", Form::Clock),
    (b"purge", Form::Purge),
    (b"execute", Form::Execute),
    (b"drop-error", Form::DropError),
    (b"refresh", Form::Refresh),
    (b"purge-log", Form::PurgeLog),
    (b"suspend", Form::Suspend),
    (b"join", Form::Join),
    (b"show", Form::Show),
    (b"proctable", Form::ProcTable),
    (b"procedure", Form::Procedure),
    (b"calls", Form::Calls),
    (b"call", Form::Call),
    (b"send", Form::Send),
    (b"push-calls", Form::PushCalls),
    (b"fate-calls", Form::FateCalls),
    (b"execute-calls", Form::ExecuteCalls),
];

/// The form of the command that begins with this token, if one does. The engine reads a command behind the same words.
pub fn form_at(lexeme: Lexeme<'_>) -> Option<Form>
    ensures { result ≡ option_map form_of_head (choice_of heads (lexeme_token lexeme.entry)) }
{
    choice_of(&COMMANDS, lexeme)
}
