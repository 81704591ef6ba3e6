//! The methods of groups and of constraints.
ghost use Rattle.script_words.specs.Parts.{choice};
ghost use Rattle.script_words.specs.Readers.{ReadsExactly};
ghost use Rattle.script_parse.specs.Methods.{method_heads, method_behind, method, unique_heads, unique_behind, unique_method};

use rep_declare::{MethodWords, UniqueWords};
use script_lex::BrokenRule;
use script_words::Reader;

/// The first word of a group's method.
#[derive(Clone, Copy, Debug, PartialEq, Eq)]
pub enum MethodHead {
    Latest,
    Earliest,
    Overwrite,
    Discard,
    Additive,
    Average,
    Maximum,
    Minimum,
    Priority,
    SitePriority,
}

const METHODS: [(&[u8], MethodHead); 10] = [
    (b"latest", MethodHead::Latest),
    (b"earliest", MethodHead::Earliest),
    (b"overwrite", MethodHead::Overwrite),
    (b"discard", MethodHead::Discard),
    (b"additive", MethodHead::Additive),
    (b"average", MethodHead::Average),
    (b"maximum", MethodHead::Maximum),
    (b"minimum", MethodHead::Minimum),
    (b"priority", MethodHead::Priority),
    (b"site-priority", MethodHead::SitePriority),
];

fn method_head(tokens: &mut Reader<'_>) -> Result<MethodHead, BrokenRule>
    ensures { ReadsExactly (choice method_heads) result tokens.old tokens.new }
{
    tokens.choice(&METHODS)
}

/// What stands behind the first word.
fn method_behind(head: MethodHead, tokens: &mut Reader<'_>) -> Result<MethodWords, BrokenRule>
    ensures { ReadsExactly (method_behind head) result tokens.old tokens.new }
{
    match head {
        MethodHead::Latest => Ok(MethodWords::Latest(tokens.name()?)),
        MethodHead::Earliest => Ok(MethodWords::Earliest(tokens.name()?)),
        MethodHead::Overwrite => Ok(MethodWords::Overwrite),
        MethodHead::Discard => Ok(MethodWords::Discard),
        MethodHead::Additive => Ok(MethodWords::Additive),
        MethodHead::Average => Ok(MethodWords::Average),
        MethodHead::Maximum => Ok(MethodWords::Maximum(tokens.name()?)),
        MethodHead::Minimum => Ok(MethodWords::Minimum(tokens.name()?)),
        MethodHead::Priority => {
            let column = tokens.name()?;
            let group = tokens.name()?;
            Ok(MethodWords::Priority { column, group })
        }
        MethodHead::SitePriority => Ok(MethodWords::SitePriority(tokens.name()?)),
    }
}

/// M
pub fn method(tokens: &mut Reader<'_>) -> Result<MethodWords, BrokenRule>
    ensures { ReadsExactly method result tokens.old tokens.new }
{
    let head = method_head(tokens)?;
    method_behind(head, tokens)
}

/// The first word of a constraint's method.
#[derive(Clone, Copy, Debug, PartialEq, Eq)]
pub enum UniqueHead {
    AppendSite,
    AppendSequence,
    Discard,
}

const UNIQUE_METHODS: [(&[u8], UniqueHead); 3] = [
    (b"append-site", UniqueHead::AppendSite),
    (b"append-sequence", UniqueHead::AppendSequence),
    (b"discard", UniqueHead::Discard),
];

fn unique_head(tokens: &mut Reader<'_>) -> Result<UniqueHead, BrokenRule>
    ensures { ReadsExactly (choice unique_heads) result tokens.old tokens.new }
{
    tokens.choice(&UNIQUE_METHODS)
}

/// What stands behind the first word.
fn unique_behind(head: UniqueHead, tokens: &mut Reader<'_>) -> Result<UniqueWords, BrokenRule>
    ensures { ReadsExactly (unique_behind head) result tokens.old tokens.new }
{
    match head {
        UniqueHead::AppendSite => Ok(UniqueWords::AppendSite(tokens.name()?)),
        UniqueHead::AppendSequence => Ok(UniqueWords::AppendSequence(tokens.name()?)),
        UniqueHead::Discard => Ok(UniqueWords::Discard),
    }
}

/// U
pub fn unique_method(tokens: &mut Reader<'_>) -> Result<UniqueWords, BrokenRule>
    ensures { ReadsExactly unique_method result tokens.old tokens.new }
{
    let head = unique_head(tokens)?;
    unique_behind(head, tokens)
}
