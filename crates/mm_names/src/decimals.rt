ghost use Rattle.std.specs.Prelude.{◌≡◌, ◌≤◌, IfSome};
ghost use Rattle.std.specs.Char.{is_ascii_digit};
ghost use Rattle.std.specs.List.{list_all};
ghost use Rattle.mm_names.specs.Decimals.{is_numeral, number_in};

/// Whether all the bytes are ASCII digits.
pub fn all_digits(bytes: &[u8]) -> bool
    ensures { result ≡ list_all is_ascii_digit bytes.now }
{
    bytes.iter().all(|b| b.is_ascii_digit())
}

/// Whether the bytes are digits, and no zero leads another digit.
fn is_numeral(bytes: &[u8]) -> bool
    ensures { result ≡ is_numeral bytes.now }
{
    match bytes {
        [] | [b'0', _, ..] => false,
        _ => all_digits(bytes),
    }
}

/// The number that the bytes write, where it is at most the limit and no zero leads it.
#[tactic(auto, unfolding(crate::specs::Decimals::number_in))]
pub fn decimal(bytes: &[u8], limit: u64) -> Option<u64>
    ensures value { result ≡ number_in limit bytes.now }
    ensures small { IfSome result (λ n. n ≤ limit) }
{
    if !is_numeral(bytes) {
        return None;
    }
    let mut n: u64 = 0;
    for b in bytes {
        let digit = char::from(*b).to_digit(10)?;
        n = n.checked_mul(10)?.checked_add(u64::from(digit))?;
    }
    (n <= limit).then_some(n)
}
