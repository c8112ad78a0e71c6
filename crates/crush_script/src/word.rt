//! Reads single words of a command: the N of `begin at N`, and the two parts of a pair `TYPE=NAME`.

ghost use Rattle.std.specs.Prelude.{◌≡◌};
ghost use Rattle.crush_script.specs.Words.{count_of, pair_of};

use crate::line::place_of;
use crush_units::limits::MOST_ENTRIES;

/// Reads the number N of a line `begin at N`, which is a number of changes.
///
/// The word must consist of one or more digits. Leading zeros are allowed. Returns `None` for any
/// other word, and for a number above 65,536, because no history has more changes.
pub(crate) fn count_of(digits: &[u8]) -> Option<u32>
    ensures { result ≡ count_of digits.now }
{
    if digits.is_empty() {
        return None;
    }
    let mut value: usize = 0;
    for digit in digits {
        if !digit.is_ascii_digit() {
            return None;
        }
        value = value * 10 + (*digit - 48) as usize;
        let many = value > MOST_ENTRIES;
        if many {
            return None;
        }
    }
    Some(value as u32)
}

/// Splits a word `TYPE=NAME` at its first `=`, and returns the bytes before the `=` and after it.
///
/// If the word has no `=`, the first part is the whole word, and the second part is empty. The
/// function doesn't check whether the parts are names.
pub(crate) fn cut_pair(word: &[u8]) -> (&[u8], &[u8])
    ensures kind { result.0.now ≡ (pair_of word.now).kind }
    ensures name { result.1.now ≡ (pair_of word.now).name }
{
    let (kind, rest) = word.split_at(place_of(b'=', word));
    match rest {
        [] => (kind, rest),
        [_, name @ ..] => (kind, name),
    }
}
