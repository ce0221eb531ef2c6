ghost use Rattle.std.specs.Prelude.{◌≡◌, ◌≤◌, length, IsTrue};
ghost use Rattle.std.specs.Str.{all_ascii_digits};
ghost use Rattle.std.specs.Str.Parse.{digits_value};
ghost use Rattle.sg_command.specs.Words.{number_in};

/// The most digits of a number among the command's words.
const MOST_DIGITS: usize = 20;

/// What a word of 1 to 20 decimal digits stands for; it has no sign.
pub fn number_in(word: &[u8]) -> Option<u128>
    ensures { result ≡ number_in word.now }
{
    if word.is_empty() || word.len() > MOST_DIGITS || !all_digits(word) {
        return None;
    }
    Some(value_of(word))
}

fn all_digits(word: &[u8]) -> bool
    ensures { result ≡ all_ascii_digits word.now }
{
    for byte in word {
        if !byte.is_ascii_digit() {
            return false;
        }
    }
    true
}

fn value_of(digits: &[u8]) -> u128
    requires digits { IsTrue (all_ascii_digits digits.now) }
    requires few { length digits.now ≤ 20 }
    ensures { result ≡ digits_value 10 digits.now }
{
    let mut value = 0;
    for digit in digits {
        value = value * 10 + u128::from(*digit - b'0');
    }
    value
}
