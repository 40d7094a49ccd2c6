ghost use Rattle.std.specs.Prelude.{◌≡◌};
ghost use Rattle.std.specs.Option.{option_map};
ghost use Rattle.mm_names.specs.Decimals.{number_in};
ghost use Rattle.mm_names.specs.Runs.{named_in, run_in};

use crate::decimals::{all_digits, decimal};
use crate::word::Word;

/// The greatest number of a local or a label.
const LAST_NUMBERED: u64 = 65_535;

/// How many bytes a name may have.
const NAME_BYTES: usize = 255;

/// What a run of characters is, all of which a name may have.
#[derive(Clone, Copy)]
pub enum Run {
    /// The local of this number.
    Local(u32),
    /// The label of this number.
    Label(u32),
    Word(Word),
    /// A name: the run itself.
    Name,
}

/// What the bytes of a run are, whose characters are those of a name.
#[tactic(auto, unfolding(crate::specs::Runs::run_in))]
pub fn kind_of_run(bytes: &[u8]) -> Option<Run>
    ensures { result ≡ run_in bytes.now }
{
    match bytes {
        [b'_', digits @ ..] if all_digits(digits) => numbered(digits).map(Run::Local),
        [b'b', b'b', digits @ ..] if !digits.is_empty() && all_digits(digits) => {
            numbered(digits).map(Run::Label)
        }
        _ => word_or_name(bytes),
    }
}

/// The number of a local or a label.
fn numbered(digits: &[u8]) -> Option<u32>
    ensures { result ≡ number_in 65535 digits.now }
{
    let n = decimal(digits, LAST_NUMBERED)?;
    Some(n as u32)
}

/// What a run of characters is that is no local and no label.
fn word_or_name(bytes: &[u8]) -> Option<Run>
    ensures { result ≡ named_in bytes.now }
{
    match Word::from_bytes(bytes) {
        Some(word) => Some(Run::Word(word)),
        None => (bytes.len() <= NAME_BYTES).then_some(Run::Name),
    }
}
