ghost use Rattle.std.specs.Prelude.{◌≡◌};
ghost use Rattle.std.specs.List.{list_any};
ghost use Rattle.script_text.specs.Kinds.{Gives};
ghost use Rattle.script_text.specs.Requests.{equal_bytes, fill_of, path_alone, path_and_name, place_and_name, place_and_number, read_of, request_of, setattr_of, symlink_of, sync_of, truncate_of, two_paths, write_of};
ghost use Rattle.script_text.specs.Script.{is_empty_word, request_from};
ghost use Rattle.script_text.specs.Parts.{bytes_of};

use crate::fault::{LineFault, ScriptKind};
use crate::number::{number_argument, number_up_to};
use crate::path::{name, place};
use crate::text::text_up_to;
use crate::verb::Verb;
use blk_base::limits::{MOST_TARGET_BYTES, MOST_WRITTEN_BYTES};
use blk_base::{Name, Text};
use flat_model::{Op, Place, Request};
use std::alloc::Global;

/// The most bytes that a `read` may ask for.
const MOST_READ_BYTES: u64 = 65_536;

/// The most bytes of an attribute's value in a script; an operation takes fewer, and refuses the rest.
const MOST_VALUE_WORD_BYTES: usize = 4096;

/// `PATH`.
#[tactic(auto, unfolding(crate::specs::Requests::path_alone))]
fn path_alone(alloc: Global, arguments: &[&[u8]]) -> Result<Place, LineFault>
    ensures { Gives (λ place. place) result (path_alone (bytes_of arguments.now)) }
{
    let [path] = arguments else {
        return Err(LineFault::Kind(ScriptKind::Word));
    };
    place(alloc, path)
}

/// `PATH PATH`.
#[tactic(auto, unfolding(crate::specs::Requests::two_paths))]
fn two_paths(alloc: Global, arguments: &[&[u8]]) -> Result<(Place, Place), LineFault>
    ensures { Gives (λ places. places) result (two_paths (bytes_of arguments.now)) }
{
    let [one, two] = arguments else {
        return Err(LineFault::Kind(ScriptKind::Word));
    };
    let one = place(alloc, one)?;
    let two = place(alloc, two)?;
    Ok((one, two))
}

/// A path, and a name behind it.
#[tactic(auto, unfolding(crate::specs::Requests::place_and_name))]
fn place_and_name(alloc: Global, path: &[u8], word: &[u8]) -> Result<(Place, Name), LineFault>
    ensures { Gives (λ named. named) result (place_and_name path.now word.now) }
{
    let place = place(alloc, path)?;
    let name = name(alloc, word)?;
    Ok((place, name))
}

/// `PATH NAME`.
#[tactic(auto, unfolding(crate::specs::Requests::path_and_name))]
fn path_and_name(alloc: Global, arguments: &[&[u8]]) -> Result<(Place, Name), LineFault>
    ensures { Gives (λ named. named) result (path_and_name (bytes_of arguments.now)) }
{
    let [path, word] = arguments else {
        return Err(LineFault::Kind(ScriptKind::Word));
    };
    place_and_name(alloc, path, word)
}

/// A path, and a number behind it.
#[tactic(auto, unfolding(crate::specs::Requests::place_and_number))]
fn place_and_number(alloc: Global, path: &[u8], word: &[u8]) -> Result<(Place, u64), LineFault>
    ensures { Gives (λ spot. spot) result (place_and_number path.now word.now) }
{
    let place = place(alloc, path)?;
    let value = number_argument(word)?;
    Ok((place, value))
}

/// 1 to 65,536 bytes that are all this one.
#[tactic(auto, unfolding(crate::specs::Requests::equal_bytes))]
fn equal_bytes(count: &[u8], byte: &[u8]) -> Result<Text, LineFault>
    ensures { Gives (λ text. text) result (equal_bytes count.now byte.now) }
{
    let count = number_up_to(1, MOST_WRITTEN_BYTES as u64, count)?;
    let byte = number_up_to(0, 255, byte)?;
    Ok(Text::repeat(count as u32, byte as u8))
}

/// `symlink PATH TARGET`, of 1 to 1023 bytes.
#[tactic(auto, unfolding(crate::specs::Requests::symlink_of))]
fn symlink(alloc: Global, arguments: &[&[u8]]) -> Result<Request, LineFault>
    ensures { Gives (λ request. request) result (symlink_of (bytes_of arguments.now)) }
{
    let [path, target] = arguments else {
        return Err(LineFault::Kind(ScriptKind::Word));
    };
    let place = place(alloc, path)?;
    let target = text_up_to(alloc, MOST_TARGET_BYTES, target)?;
    Ok(Request::Op(Op::Symlink(place, target)))
}

/// `write PATH OFFSET TEXT`, of 1 to 65,536 bytes.
#[tactic(auto, unfolding(crate::specs::Requests::write_of))]
fn write(alloc: Global, arguments: &[&[u8]]) -> Result<Request, LineFault>
    ensures { Gives (λ request. request) result (write_of (bytes_of arguments.now)) }
{
    let [path, offset, text] = arguments else {
        return Err(LineFault::Kind(ScriptKind::Word));
    };
    let (place, offset) = place_and_number(alloc, path, offset)?;
    let text = text_up_to(alloc, MOST_WRITTEN_BYTES, text)?;
    Ok(Request::Op(Op::Write(place, offset, text)))
}

/// `fill PATH OFFSET COUNT BYTE`: a write of 1 to 65,536 bytes that are all this one.
#[tactic(auto, unfolding(crate::specs::Requests::fill_of))]
fn fill(alloc: Global, arguments: &[&[u8]]) -> Result<Request, LineFault>
    ensures { Gives (λ request. request) result (fill_of (bytes_of arguments.now)) }
{
    let [path, offset, count, byte] = arguments else {
        return Err(LineFault::Kind(ScriptKind::Word));
    };
    let (place, offset) = place_and_number(alloc, path, offset)?;
    let text = equal_bytes(count, byte)?;
    Ok(Request::Op(Op::Write(place, offset, text)))
}

/// `truncate PATH SIZE`.
#[tactic(auto, unfolding(crate::specs::Requests::truncate_of))]
fn truncate(alloc: Global, arguments: &[&[u8]]) -> Result<Request, LineFault>
    ensures { Gives (λ request. request) result (truncate_of (bytes_of arguments.now)) }
{
    let [path, size] = arguments else {
        return Err(LineFault::Kind(ScriptKind::Word));
    };
    let (place, size) = place_and_number(alloc, path, size)?;
    Ok(Request::Op(Op::Truncate(place, size)))
}

/// `read PATH OFFSET COUNT`, of at most 65,536 bytes.
#[tactic(auto, unfolding(crate::specs::Requests::read_of))]
fn read(alloc: Global, arguments: &[&[u8]]) -> Result<Request, LineFault>
    ensures { Gives (λ request. request) result (read_of (bytes_of arguments.now)) }
{
    let [path, offset, count] = arguments else {
        return Err(LineFault::Kind(ScriptKind::Word));
    };
    let (place, offset) = place_and_number(alloc, path, offset)?;
    let count = number_up_to(0, MOST_READ_BYTES, count)?;
    Ok(Request::Op(Op::Read(place, offset, count)))
}

/// `setattr PATH NAME VALUE`, of 1 to 4096 bytes.
#[tactic(auto, unfolding(crate::specs::Requests::setattr_of))]
fn setattr(alloc: Global, arguments: &[&[u8]]) -> Result<Request, LineFault>
    ensures { Gives (λ request. request) result (setattr_of (bytes_of arguments.now)) }
{
    let [path, word, value] = arguments else {
        return Err(LineFault::Kind(ScriptKind::Word));
    };
    let (place, name) = place_and_name(alloc, path, word)?;
    let value = text_up_to(alloc, MOST_VALUE_WORD_BYTES, value)?;
    Ok(Request::Op(Op::SetAttr(place, name, value)))
}

/// `sync`.
#[tactic(auto, unfolding(crate::specs::Requests::sync_of))]
fn sync(arguments: &[&[u8]]) -> Result<Request, LineFault>
    ensures { Gives (λ request. request) result (sync_of (bytes_of arguments.now)) }
{
    if !arguments.is_empty() {
        return Err(LineFault::Kind(ScriptKind::Word));
    }
    Ok(Request::Sync)
}

/// The request of a verb and its arguments.
#[tactic(auto, unfolding(crate::specs::Requests::request_of))]
fn request_of_verb(alloc: Global, verb: Verb, arguments: &[&[u8]]) -> Result<Request, LineFault>
    ensures { Gives (λ request. request) result (request_of verb (bytes_of arguments.now)) }
{
    match verb {
        Verb::Create => Ok(Request::Op(Op::Create(path_alone(alloc, arguments)?))),
        Verb::Mkdir => Ok(Request::Op(Op::Mkdir(path_alone(alloc, arguments)?))),
        Verb::Unlink => Ok(Request::Op(Op::Unlink(path_alone(alloc, arguments)?))),
        Verb::Rmdir => Ok(Request::Op(Op::Rmdir(path_alone(alloc, arguments)?))),
        Verb::Lookup => Ok(Request::Op(Op::Lookup(path_alone(alloc, arguments)?))),
        Verb::Link => {
            let (old, new) = two_paths(alloc, arguments)?;
            Ok(Request::Op(Op::Link(old, new)))
        }
        Verb::Rename => {
            let (old, new) = two_paths(alloc, arguments)?;
            Ok(Request::Op(Op::Rename(old, new)))
        }
        Verb::Exchange => {
            let (one, two) = two_paths(alloc, arguments)?;
            Ok(Request::Op(Op::Exchange(one, two)))
        }
        Verb::DelAttr => {
            let (place, name) = path_and_name(alloc, arguments)?;
            Ok(Request::Op(Op::DelAttr(place, name)))
        }
        Verb::GetAttr => {
            let (place, name) = path_and_name(alloc, arguments)?;
            Ok(Request::Op(Op::GetAttr(place, name)))
        }
        Verb::Symlink => symlink(alloc, arguments),
        Verb::Write => write(alloc, arguments),
        Verb::Fill => fill(alloc, arguments),
        Verb::Truncate => truncate(alloc, arguments),
        Verb::Read => read(alloc, arguments),
        Verb::SetAttr => setattr(alloc, arguments),
        Verb::Sync => sync(arguments),
    }
}

/// Whether one of the words has no byte.
fn has_empty(words: &[&[u8]]) -> bool
    ensures { result ≡ list_any is_empty_word (bytes_of words.now) }
{
    for word in words {
        if word.is_empty() {
            return true;
        }
    }
    false
}

/// The request of the words behind a caller's: a verb and its arguments, none of them empty.
#[tactic(auto, unfolding(crate::specs::Script::request_from))]
pub(crate) fn request(alloc: Global, words: &[&[u8]]) -> Result<Request, LineFault>
    ensures { Gives (λ request. request) result (request_from (bytes_of words.now)) }
{
    if has_empty(words) {
        return Err(LineFault::Kind(ScriptKind::Word));
    }
    let Some((word, arguments)) = words.split_first() else {
        return Err(LineFault::Kind(ScriptKind::Word));
    };
    let verb = Verb::of(word)?;
    request_of_verb(alloc, verb, arguments)
}
