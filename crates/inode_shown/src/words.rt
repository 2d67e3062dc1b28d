//! Words of a line.
ghost use Rattle.std.specs.Prelude.{◌≡◌, ◌++◌, OnOk};
ghost use Rattle.std.specs.Fmt.{decimal};
ghost use Rattle.volume_listing.specs.Listing.{kind_word, word};
ghost use Rattle.inode_shown.specs.Words.{text_shown};

use blk_base::OutOfMemory;
use flat_model::Kind;
use io_edge::push_number;
use std::alloc::Global;

/// Adds a number in decimal, and a space.
pub(crate) fn put_number_word(
    alloc: Global,
    text: &mut Vec<u8>,
    number: u64,
) -> Result<(), OutOfMemory>
    ensures { OnOk result (text.new.items ≡ text.old.items ++ word (decimal number)) }
{
    push_number(alloc, text, u128::from(number))?;
    text.push(b' ')?;
    Ok(())
}

/// Adds the word of a kind, and a space.
pub(crate) fn put_kind_word(text: &mut Vec<u8>, kind: Kind) -> Result<(), OutOfMemory>
    ensures { OnOk result (text.new.items ≡ text.old.items ++ word (kind_word kind)) }
{
    let bytes: &[u8] = match kind {
        Kind::File => b"file ",
        Kind::Dir => b"dir ",
        Kind::Link => b"link ",
    };
    text.extend_from_slice(bytes)?;
    Ok(())
}

/// Adds the text of a path, a slash alone for the root directory.
pub(crate) fn put_path(text: &mut Vec<u8>, path: &[u8]) -> Result<(), OutOfMemory>
    ensures { OnOk result (text.new.items ≡ text.old.items ++ text_shown path.now) }
{
    if path.is_empty() {
        text.push(b'/')?;
        return Ok(());
    }
    text.extend_from_slice(path)?;
    Ok(())
}
