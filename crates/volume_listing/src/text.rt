//! Numbers and texts as words.
ghost use Rattle.std.specs.Prelude.{◌≡◌, ◌++◌, OnOk, IfOk};
ghost use Rattle.std.specs.Fmt.{decimal};
ghost use Rattle.volume_listing.specs.Listing.{word};

use blk_base::{OutOfMemory, Text};
use io_edge::push_number;
use std::alloc::Global;

/// Adds a number in decimal, and a space.
pub(crate) fn put_number_word(
    alloc: Global,
    text: &mut Vec<u8>,
    number: u128,
) -> Result<(), OutOfMemory>
    ensures { OnOk result (text.new.items ≡ text.old.items ++ word (decimal number)) }
{
    push_number(alloc, text, number)?;
    text.push(b' ')?;
    Ok(())
}

/// The bytes of a text.
pub(crate) fn bytes_of(alloc: Global, text: &Text) -> Result<Vec<u8>, OutOfMemory>
    ensures { IfOk result (λ bytes. bytes.items ≡ text.now) }
{
    let mut bytes = Vec::new(alloc);
    for place in 0..text.len() {
        bytes.push(text.byte(place))?;
    }
    Ok(bytes)
}
