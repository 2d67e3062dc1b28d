ghost use Rattle.std.specs.Prelude.{◌≡◌, ◌≤◌, IfOk};
ghost use Rattle.script_text.specs.Kinds.{Gives};
ghost use Rattle.script_text.specs.Words.{number_of, number_up_to, number_word};

use crate::fault::{LineFault, ScriptKind};

/// The number that the word is: decimal digits without a sign or a leading zero, at most 2^64 - 1 (own).
pub(crate) fn number(word: &[u8]) -> Option<u64>
    ensures { result ≡ number_of word.now }
{
    match word {
        [] | [b'0', _, ..] => return None,
        _ => {}
    }
    let mut value = 0u64;
    for digit in word {
        if !digit.is_ascii_digit() {
            return None;
        }
        value = value
            .checked_mul(10)?
            .checked_add(u64::from(*digit - b'0'))?;
    }
    Some(value)
}

/// The number that an argument is; else `Number`.
#[tactic(auto, unfolding(crate::specs::Words::number_word))]
pub(crate) fn number_argument(word: &[u8]) -> Result<u64, LineFault>
    ensures { Gives (λ value. value) result (number_word word.now) }
{
    number(word).ok_or(LineFault::Kind(ScriptKind::Number))
}

/// The number that an argument is, between two others, both included; else `Number`.
#[tactic(auto, unfolding(crate::specs::Words::number_up_to))]
pub(crate) fn number_up_to(least: u64, most: u64, word: &[u8]) -> Result<u64, LineFault>
    ensures number { Gives (λ value. value) result (number_up_to least most word.now) }
    ensures least { IfOk result (λ value. least ≤ value) }
    ensures most { IfOk result (λ value. value ≤ most) }
{
    let number = number_argument(word)?;
    if number < least || most < number {
        return Err(LineFault::Kind(ScriptKind::Number));
    }
    Ok(number)
}
