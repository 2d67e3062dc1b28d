ghost use Rattle.std.specs.Prelude.{◌≡◌, ◌≤◌, ◌<◌, ℕ, Some, IfSome, IsNone};
ghost use Rattle.uuid.specs.Text.{parsed};
ghost use Rattle.script_runner.specs.Words.{IsNumber, IsUuidText};

use uuid::Uuid;

/// The number that the word is, where that is at most `most`.
pub(crate) fn number(word: &[u8], most: u32) -> Option<u32>
    ensures number { IfSome result (IsNumber word.now) }
    ensures most { IfSome result (λ value. value ≤ most) }
    ensures none { IsNone result → (value : ℕ) → IsNumber word.now value → most < value }
{
    match word {
        [] | [b'0', _, ..] => return None,
        _ => {}
    }
    let mut value = 0u64;
    for digit in word {
        if !digit.is_ascii_digit() {
            return None;
        }
        value = 10 * value + u64::from(*digit - b'0');
        if value > u64::from(most) {
            return None;
        }
    }
    Some(value as u32)
}

/// The bytes of the uuid whose text the word is.
pub(crate) fn uuid_bytes(word: &str) -> Option<[u8; 16]>
    ensures text { IfSome result (λ _. IsUuidText word.now) }
    ensures bytes { IfSome result (λ bytes. parsed word.now ≡ Some bytes) }
    ensures none { IsNone result → IsUuidText word.now → ⊥ }
{
    if word.len() != 36 {
        return None;
    }
    match Uuid::parse_str(word) {
        Ok(uuid) => Some(uuid.into_bytes()),
        Err(_) => None,
    }
}
