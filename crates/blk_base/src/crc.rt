ghost use Rattle.std.specs.Prelude.{◌≡◌, ℕ, ◌/◌, ◌%◌, ◌^◌, ◌<◌, ◌++◌, List, All, bit_xor};
ghost use Rattle.blk_base.specs.Crc.{crc_byte, register_after, crc32c_of, block_sum, name_hash_of, extref_hash_of};

use crate::crc_tables::advanced;

// Eight bytes into the register, by eight tables.
#[inline(always)]
fn eight_more(register: u32, bytes: &[u8; 8]) -> u32
    ensures { result ≡ register_after register bytes.now }
{
    let word = u64::from_le_bytes(*bytes) ^ u64::from(register);
    let [a, b, c, d, e, f, g, h] = word.to_le_bytes();
    advanced(a, 7)
        ^ advanced(b, 6)
        ^ advanced(c, 5)
        ^ advanced(d, 4)
        ^ advanced(e, 3)
        ^ advanced(f, 2)
        ^ advanced(g, 1)
        ^ advanced(h, 0)
}

// One byte into the register.
#[inline(always)]
fn one_more(register: u32, byte: u8) -> u32
    ensures { result ≡ crc_byte register byte }
{
    let low = (register & 0xff) as u8;
    advanced(low ^ byte, 0) ^ (register >> 8)
}

/// The CRC-32C register after the bytes, begun at `start` ("Checksums" of the on-disk format; `crc32c` of the
/// kernel).
pub fn crc_register(start: u32, bytes: &[u8]) -> u32
    ensures { result ≡ register_after start bytes.now }
{
    let mut register = start;
    let mut rest = bytes;
    while let Some((chunk, others)) = rest.split_first_chunk::<8>() {
        register = eight_more(register, chunk);
        rest = others;
    }
    for byte in rest {
        register = one_more(register, *byte);
    }
    register
}

/// The CRC-32C of the bytes ("Checksums" of the on-disk format).
pub fn crc32c(bytes: &[u8]) -> u32
    ensures { result ≡ crc32c_of bytes.now }
{
    crc_register(u32::MAX, bytes) ^ u32::MAX
}

/// One byte more, the law of the table: what a byte makes of the register is the table's entry at the low byte of
/// the two together, beside the register's other bytes moved down (own).
pub fn crc_table_law()
    ensures { (register byte : ℕ) → byte < 256 → crc_byte register byte ≡ bit_xor (crc_byte 0 (bit_xor register byte % 256)) (register / 256) }
{}

/// The register after two strings of bytes, one behind the other (own).
pub fn register_append()
    ensures { (start : ℕ) (first second : List ℕ) → register_after start (first ++ second) ≡ register_after (register_after start first) second }
{}

/// The register stays within 32 bits, and so do sums and hashes of bytes (own).
pub fn register_fits()
    ensures register { (start : ℕ) (bytes : List ℕ) → start < 2 ^ 32 → All (λ byte. byte < 256) bytes → register_after start bytes < 2 ^ 32 }
    ensures sum { (bytes : List ℕ) → All (λ byte. byte < 256) bytes → crc32c_of bytes < 2 ^ 32 }
    ensures block_sum { (bytes : List ℕ) → All (λ byte. byte < 256) bytes → block_sum bytes < 2 ^ 32 }
    ensures name_hash { (name : List ℕ) → All (λ byte. byte < 256) name → name_hash_of name < 2 ^ 32 }
    ensures extref_hash { (parent : ℕ) (name : List ℕ) → All (λ byte. byte < 256) name → extref_hash_of parent name < 2 ^ 32 }
{}

#[cfg(test)]
mod tests {
    use super::*;

    #[test]
    fn sums_are_the_published_ones(rt: HostRuntime) {
        assert_eq!(rt; crc32c(b"123456789"), 0xe306_9283);
        assert_eq!(rt; crc32c(b"hi"), 0xf59d_d9c2);
        assert_eq!(rt; crc32c(&[0; 32]), 0x8a91_36aa);
        assert_eq!(rt; crc_register(0, b""), 0);
        crc_table_law();
        register_append();
        register_fits();
    }
}
