ghost use Rattle.std.specs.Prelude.{◌≡◌, ℕ, map, IfSome};
ghost use Rattle.mm_plain.specs.declared.program.Opts.{Opts};
ghost use Rattle.mm_tool.specs.Words.{AreLimits};
ghost use Rattle.mm_tool.specs.WordReading.{IsOption, Adds};
ghost use Rattle.mm_tool.specs.declared.limits.Given.{Given};

use crate::numbers::number;
use mm_plain::Opts;

/// The greatest number that `--length` takes.
const LENGTH_MOST: u32 = 2_048;

/// The greatest number that `--items` takes.
const ITEMS_MOST: u32 = 131_072;

/// The numbers of the options that are given.
#[derive(Clone, Copy)]
struct Given {
    length: Option<u32>,
    items: Option<u32>,
}

/// The number of an option, where the word is the name of that option and such a number.
fn number_of(word: &str, name: &str, most: u32) -> Option<u32>
    ensures some { IfSome result (IsOption name.now most word.now) }
    ensures none { result ≡ None → (n : ℕ) → IsOption name.now most word.now n → ⊥ }
{
    number(word.strip_prefix(name)?, most)
}

impl Given {
    /// What is given with one more word, where it is an option that was not given before.
    fn with(self, word: &str) -> Option<Given>
        ensures some { IfSome result (Adds self word.now) }
        ensures none { result ≡ None → (more : Given) → Adds self word.now more → ⊥ }
    {
        if let Some(n) = number_of(word, "--length=", LENGTH_MOST) {
            return match self.length {
                None => Some(Given {
                    length: Some(n),
                    items: self.items,
                }),
                Some(_) => None,
            };
        }
        let n = number_of(word, "--items=", ITEMS_MOST)?;
        match self.items {
            None => Some(Given {
                length: self.length,
                items: Some(n),
            }),
            Some(_) => None,
        }
    }
}

/// Reads the options `--length=N`, from 1 to 2,048, and `--items=N`, from 1 to 131,072, in any order, each at most once.
///
/// `None` exactly where they are others.
pub fn read_limits(options: &[&str]) -> Option<Opts>
    ensures some { IfSome result (AreLimits (map (λ w. w.now) options.now)) }
    ensures none { result ≡ None → (opts : Opts) → AreLimits (map (λ w. w.now) options.now) opts → ⊥ }
{
    let mut given = Given {
        length: None,
        items: None,
    };
    for word in options {
        given = given.with(word)?;
    }
    let default = Opts::default();
    Some(Opts {
        length: given.length.unwrap_or(default.length),
        items: given.items.unwrap_or(default.items),
    })
}
