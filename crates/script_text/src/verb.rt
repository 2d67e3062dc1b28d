ghost use Rattle.std.specs.Prelude.{◌≡◌};
ghost use Rattle.script_text.specs.Kinds.{Gives};
ghost use Rattle.script_text.specs.Requests.{attribute_verb, content_verb, last_verb, making_verb, moving_verb, or_verb, removing_verb, verb_of};

use crate::fault::{LineFault, ScriptKind};

// The words of the verbs.
const CREATE: &[u8] = b"create";

const MKDIR: &[u8] = b"mkdir";

const SYMLINK: &[u8] = b"symlink";

const LINK: &[u8] = b"link";

const UNLINK: &[u8] = b"unlink";

const RMDIR: &[u8] = b"rmdir";

const LOOKUP: &[u8] = b"lookup";

const RENAME: &[u8] = b"rename";

const EXCHANGE: &[u8] = b"exchange";

const WRITE: &[u8] = b"write";

const FILL: &[u8] = b"fill";

const TRUNCATE: &[u8] = b"truncate";

const READ: &[u8] = b"read";

const SETATTR: &[u8] = b"setattr";

const DELATTR: &[u8] = b"delattr";

const GETATTR: &[u8] = b"getattr";

const SYNC: &[u8] = b"sync";

/// The first word of a request.
#[derive(Clone, Copy)]
pub(crate) enum Verb {
    Create,
    Mkdir,
    Symlink,
    Link,
    Unlink,
    Rmdir,
    Rename,
    Exchange,
    Lookup,
    Write,
    Fill,
    Truncate,
    Read,
    SetAttr,
    DelAttr,
    GetAttr,
    Sync,
}

/// A verb that makes a name.
fn making_verb(word: &[u8]) -> Option<Verb>
    ensures { result ≡ making_verb word.now }
{
    if word == CREATE {
        return Some(Verb::Create);
    }
    if word == MKDIR {
        return Some(Verb::Mkdir);
    }
    if word == SYMLINK {
        return Some(Verb::Symlink);
    }
    if word == LINK {
        return Some(Verb::Link);
    }
    None
}

/// A verb that removes a name, or asks for it.
fn removing_verb(word: &[u8]) -> Option<Verb>
    ensures { result ≡ removing_verb word.now }
{
    if word == UNLINK {
        return Some(Verb::Unlink);
    }
    if word == RMDIR {
        return Some(Verb::Rmdir);
    }
    if word == LOOKUP {
        return Some(Verb::Lookup);
    }
    None
}

/// A verb that moves names.
fn moving_verb(word: &[u8]) -> Option<Verb>
    ensures { result ≡ moving_verb word.now }
{
    if word == RENAME {
        return Some(Verb::Rename);
    }
    if word == EXCHANGE {
        return Some(Verb::Exchange);
    }
    None
}

/// A verb on the contents of a file.
fn content_verb(word: &[u8]) -> Option<Verb>
    ensures { result ≡ content_verb word.now }
{
    if word == WRITE {
        return Some(Verb::Write);
    }
    if word == FILL {
        return Some(Verb::Fill);
    }
    if word == TRUNCATE {
        return Some(Verb::Truncate);
    }
    if word == READ {
        return Some(Verb::Read);
    }
    None
}

/// A verb on attributes.
fn attribute_verb(word: &[u8]) -> Option<Verb>
    ensures { result ≡ attribute_verb word.now }
{
    if word == SETATTR {
        return Some(Verb::SetAttr);
    }
    if word == DELATTR {
        return Some(Verb::DelAttr);
    }
    if word == GETATTR {
        return Some(Verb::GetAttr);
    }
    None
}

/// The first of two verbs, if any.
fn or_verb(first: Option<Verb>, later: Option<Verb>) -> Option<Verb>
    ensures { result ≡ or_verb first later }
{
    match first {
        None => later,
        Some(verb) => Some(verb),
    }
}

/// `sync`, or no verb.
fn last_verb(word: &[u8]) -> Result<Verb, LineFault>
    ensures { Gives (λ verb. verb) result (last_verb word.now) }
{
    if word == SYNC {
        return Ok(Verb::Sync);
    }
    Err(LineFault::Kind(ScriptKind::Word))
}

impl Verb {
    /// The verb that the word is.
    #[tactic(auto, unfolding(crate::specs::Requests::verb_of))]
    pub(crate) fn of(word: &[u8]) -> Result<Verb, LineFault>
        ensures { Gives (λ verb. verb) result (verb_of word.now) }
    {
        let contents = or_verb(content_verb(word), attribute_verb(word));
        let moving = or_verb(moving_verb(word), contents);
        let removing = or_verb(removing_verb(word), moving);
        match or_verb(making_verb(word), removing) {
            Some(verb) => Ok(verb),
            None => last_verb(word),
        }
    }
}
