ghost use Rattle.std.specs.Prelude.{◌≡◌, ◌≤◌, length, IfOk};
ghost use Rattle.script_text.specs.Kinds.{Gives};
ghost use Rattle.script_text.specs.Paths.{sub_of, name_of, all_names, is_root, names_of, place_from, place_of};
ghost use Rattle.script_text.specs.Parts.{bytes_of};

use crate::fault::{LineFault, ScriptKind};
use crate::number::number;
use crate::parts::parts;
use crate::text::text;
use blk_base::format::FS_TREE;
use blk_base::limits::MOST_PATH_NAMES;
use blk_base::{Name, SubId, is_name};
use flat_model::{Path, Place};
use std::alloc::Global;

/// The subvolume that stands in front of a path's first slash: nothing for 5, and else its number and a colon (own).
#[tactic(auto, unfolding(crate::specs::Paths::sub_of))]
fn sub(head: &[u8]) -> Result<SubId, LineFault>
    ensures { Gives (λ id. id.0) result (sub_of head.now) }
{
    match head {
        [] => Ok(SubId(FS_TREE)),
        [digits @ .., b':'] => match number(digits) {
            Some(id) if id != FS_TREE => Ok(SubId(id)),
            _ => Err(LineFault::Kind(ScriptKind::Path)),
        },
        _ => Err(LineFault::Kind(ScriptKind::Path)),
    }
}

/// The name that the piece of a path spells.
#[tactic(auto, unfolding(crate::specs::Paths::name_of))]
pub(crate) fn name(alloc: Global, piece: &[u8]) -> Result<Name, LineFault>
    ensures { Gives (λ name. name) result (name_of piece.now) }
{
    let bytes = text(alloc, piece)?;
    if !is_name(bytes.as_slice()) {
        return Err(LineFault::Kind(ScriptKind::Path));
    }
    Ok(Name::new(alloc, bytes.as_slice())?)
}

/// The names that the pieces of a path spell.
fn all_names(alloc: Global, pieces: &[&[u8]]) -> Result<Vec<Name>, LineFault>
    ensures names { Gives (λ names. names.items) result (all_names (bytes_of pieces.now)) }
    ensures count { IfOk result (λ names. length names.items ≡ length pieces.now) }
{
    let mut names = Vec::new(alloc);
    for piece in pieces {
        names.push(name(alloc, piece)?)?;
    }
    Ok(names)
}

/// Whether the pieces are those of `/`: one, and it is empty.
fn is_root(pieces: &[&[u8]]) -> bool
    ensures { result ≡ is_root (bytes_of pieces.now) }
{
    match pieces {
        [piece] => piece.is_empty(),
        _ => false,
    }
}

/// The names of the pieces that stand behind the slashes of a path: of `/` none, and else 1 to 64 (own limit).
#[tactic(auto, unfolding(crate::specs::Paths::names_of))]
fn names(alloc: Global, pieces: &[&[u8]]) -> Result<Vec<Name>, LineFault>
    ensures names { Gives (λ names. names.items) result (names_of (bytes_of pieces.now)) }
    ensures few { IfOk result (λ names. length names.items ≤ 64) }
{
    if is_root(pieces) {
        return Ok(Vec::new(alloc));
    }
    if pieces.is_empty() || MOST_PATH_NAMES < pieces.len() {
        return Err(LineFault::Kind(ScriptKind::Path));
    }
    all_names(alloc, pieces)
}

/// The place that the parts of a path are: what stands in front of the first slash, and the pieces behind the slashes.
#[tactic(auto, unfolding(crate::specs::Paths::place_from))]
fn place_of_parts(alloc: Global, parts: &[&[u8]]) -> Result<Place, LineFault>
    ensures { Gives (λ place. place) result (place_from (bytes_of parts.now)) }
{
    let Some((head, pieces)) = parts.split_first() else {
        return Err(LineFault::Kind(ScriptKind::Path));
    };
    let sub = sub(head)?;
    let names = names(alloc, pieces)?;
    Ok(Place {
        sub,
        path: Path::new(names),
    })
}

/// The place that the word spells. The slashes that stand there cut it, and then each piece is decoded. `Escape` comes
/// before `Path` (own).
#[tactic(auto, unfolding(crate::specs::Paths::place_of))]
pub(crate) fn place(alloc: Global, word: &[u8]) -> Result<Place, LineFault>
    ensures { Gives (λ place. place) result (place_of word.now) }
{
    let _whole = text(alloc, word)?;
    let parts = parts(alloc, word, b'/')?;
    place_of_parts(alloc, parts.as_slice())
}
