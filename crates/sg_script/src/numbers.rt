ghost use Rattle.std.specs.Prelude.{◌≡◌, ◌≤◌, ◌<◌, ◌^◌, option_map, pos, neg_ℤ, IfSome};
ghost use Rattle.sg_script.specs.Numbers.{is_digit, magnitude, number};

/// The most digits of a number.
const MOST_DIGITS: usize = 18;

fn is_digit(byte: u8) -> bool
    ensures { result ≡ is_digit byte }
{
    byte >= b'0' && byte <= b'9'
}

/// The number that a field spells: an optional minus sign and 1 to 18 digits.
pub fn number(field: &[u8]) -> Option<i64>
    ensures { result ≡ number field.now }
{
    match field {
        [] => None,
        [b'-', digits @ ..] => negative(magnitude(digits)),
        digits => positive(magnitude(digits)),
    }
}

fn positive(size: Option<u64>) -> Option<i64>
    requires { IfSome size (λ n. n < 10 ^ 18) }
    ensures { result ≡ option_map pos size }
{
    match size {
        Some(size) => Some(size as i64),
        None => None,
    }
}

fn negative(size: Option<u64>) -> Option<i64>
    requires { IfSome size (λ n. n < 10 ^ 18) }
    ensures { result ≡ option_map (λ n. neg_ℤ (pos n)) size }
{
    match size {
        Some(size) => Some(-(size as i64)),
        None => None,
    }
}

/// What 1 to 18 digits stand for.
#[tactic(auto, using(crate::proofs::Sizes::fits_digits, crate::proofs::Sizes::fits_next, crate::proofs::Sizes::below_next))]
fn magnitude(digits: &[u8]) -> Option<u64>
    ensures value { result ≡ magnitude digits.now }
    ensures within { IfSome result (λ n. n < 10 ^ 18) }
{
    if digits.is_empty() || digits.len() > MOST_DIGITS {
        return None;
    }
    let mut size = 0u64;
    for byte in digits {
        if !is_digit(*byte) {
            return None;
        }
        size = 10 * size + u64::from(*byte - b'0');
    }
    Some(size)
}
