//! What the types of an operation say of it: its paths are paths, its names names and its texts bytes.
ghost use Rattle.flat_model.specs.Coherent.{AreBytes, IsNameBytes};
ghost use Rattle.flat_model.specs.Step.{IsPath, IsSpelled};

use blk_base::{Name, Text};
use flat_model::{Op, Path};

/// A text is bytes.
fn read_text(text: &Text)
    ensures { AreBytes text.now }
{
    let _length = text.len();
}

/// A name is a name's bytes.
fn read_name(name: &Name)
    ensures { IsNameBytes name.now }
{
    let _bytes = name.as_bytes();
}

/// A path has at most 64 names.
fn read_path(path: &Path)
    ensures { IsPath path.now }
{
    for name in path.names() {
        read_name(name);
    }
}

/// What its types say of an operation holds.
pub(crate) fn read_op(op: &Op)
    ensures { IsSpelled op.now }
{
    match op {
        Op::Create(place)
        | Op::Mkdir(place)
        | Op::Unlink(place)
        | Op::Rmdir(place)
        | Op::Lookup(place)
        | Op::Truncate(place, _)
        | Op::Read(place, _, _) => read_path(&place.path),
        Op::Symlink(place, text) | Op::Write(place, _, text) => {
            read_path(&place.path);
            read_text(text);
        }
        Op::Link(old, new) | Op::Rename(old, new) | Op::Exchange(old, new) => {
            read_path(&old.path);
            read_path(&new.path);
        }
        Op::SetAttr(place, name, value) => {
            read_path(&place.path);
            read_name(name);
            read_text(value);
        }
        Op::DelAttr(place, name) | Op::GetAttr(place, name) => {
            read_path(&place.path);
            read_name(name);
        }
    }
}
