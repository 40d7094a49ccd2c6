ghost use Rattle.std.specs.Prelude.{◌≡◌};
ghost use Rattle.mm_objects.specs.LineReading.{below_in};

use mm_names::decimal;

/// A number below the limit, and below 2^32 in any case.
#[tactic(auto, unfolding(crate::specs::LineReading::below_in))]
pub fn number_below(text: &[u8], limit: u64) -> Option<u32>
    ensures { result ≡ below_in limit text.now }
{
    let n = decimal(text, u64::from(u32::MAX))?;
    (n < limit).then_some(n as u32)
}
