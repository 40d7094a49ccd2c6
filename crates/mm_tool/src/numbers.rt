ghost use Rattle.std.specs.Prelude.{◌≡◌, ℕ, true, false, slice_index, IfSome};
ghost use Rattle.std.specs.Int.{IsInRange};
ghost use Rattle.mm_tool.specs.WordReading.{IsCount, IsNumber};

/// Whether the text begins with a digit that is not zero.
fn begins_as_number(text: &str) -> bool
    ensures yes { result ≡ true → IsInRange 49 57 (slice_index text.now 0) }
    ensures no { result ≡ false → IsInRange 49 57 (slice_index text.now 0) → ⊥ }
{
    matches!(text.as_bytes(), [b'1'..=b'9', ..])
}

/// The number that the digits write, from 1 to the greatest.
pub fn number(digits: &str, most: u32) -> Option<u32>
    ensures some { IfSome result (IsNumber most digits.now) }
    ensures none { result ≡ None → (n : ℕ) → IsNumber most digits.now n → ⊥ }
{
    if !begins_as_number(digits) {
        return None;
    }
    match digits.parse::<u32>() {
        Ok(n) if n <= most => Some(n),
        _ => None,
    }
}

/// The number that the digits write, from 0 to the greatest.
pub fn count(digits: &str, most: u32) -> Option<u32>
    ensures some { IfSome result (IsCount most digits.now) }
    ensures none { result ≡ None → (n : ℕ) → IsCount most digits.now n → ⊥ }
{
    if digits == "0" {
        return Some(0);
    }
    number(digits, most)
}
