//! The numbers of command lines.
ghost use Rattle.std.specs.Prelude.{◌≡◌, ◌≤◌, ◌<◌, ◌^◌, IfSome};
ghost use Rattle.tw_command.specs.Numbers.{number_of, in_range};

// The number that the word spells, where it is in the range. Leading zeros and signs are refused.
pub fn number_within(word: &[u8], least: u64, most: u64) -> Option<u64>
    requires { most < 2 ^ 60 }
    ensures number { result ≡ in_range least most (number_of word.now) }
    ensures bound { IfSome result (λ n. n ≤ most) }
{
    if word.is_empty() || (word.len() > 1 && word[0] == b'0') {
        return None;
    }
    let mut number = 0;
    for byte in word {
        if !byte.is_ascii_digit() {
            return None;
        }
        if number > most {
            return None;
        }
        number = number * 10 + u64::from(*byte - b'0');
    }
    if number < least || number > most {
        return None;
    }
    Some(number)
}
