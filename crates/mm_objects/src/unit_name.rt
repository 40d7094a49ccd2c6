ghost use Rattle.std.specs.Prelude.{◌≡◌, ◌==◌, map, IfOk};
ghost use Rattle.std.specs.List.{slice_split};
ghost use Rattle.mm_names.specs.Runs.{is_name};
ghost use Rattle.mm_objects.specs.Given.{Gives};
ghost use Rattle.mm_objects.specs.LineReading.{is_empty, is_stability, is_path_cut, names_module, names_unit, is_unit_name, unit_name_in, both_of};

use crate::line_error::LineError;
use crate::pieces::both;
use crate::words::{cut, is};
use mm_names::is_name;
use mm_terms::Text;
use std::alloc::{AllocError, Global};

/// Whether a word is a name.
fn tests_name(word: &[u8]) -> bool
    ensures { result ≡ is_name word.now }
{
    is_name(word)
}

fn is_empty(word: &[u8]) -> bool
    ensures { result ≡ is_empty word.now }
{
    matches!(word, [])
}

fn is_stability(word: &[u8]) -> bool
    ensures { result ≡ is_stability word.now }
{
    is(word, b"stable") || is(word, b"volatile")
}

/// Whether the parts between the colons of a path are names, and between each two of them a part without bytes.
fn is_path_cut(parts: &[&[u8]]) -> bool
    ensures { result ≡ is_path_cut (map (λ w. w.now) parts.now) }
{
    let mut at = 0;
    'each: while at < parts.len() {
        if !tests_name(parts[at]) {
            return false;
        }
        if at + 1 == parts.len() {
            return true;
        }
        if !is_empty(parts[at + 1]) {
            return false;
        }
        at += 2;
    }
    false
}

/// Whether a word is the path of a module, and whether its unit is stable or volatile.
fn names_module(alloc: Global, word: &[u8]) -> Result<bool, AllocError>
    ensures { IfOk result (λ is. is ≡ names_module (both_of (slice_split (λ b. b == 46) word.now))) }
{
    let parts = cut(alloc, word, b'.')?;
    let Some((path, stability)) = both(&parts) else {
        return Ok(false);
    };
    if !is_stability(stability) {
        return Ok(false);
    }
    let names = cut(alloc, path, b':')?;
    Ok(is_path_cut(&names))
}

/// Whether a word is the name of a unit.
#[tactic(auto, unfolding(crate::specs::LineReading::is_unit_name))]
fn is_unit_name(alloc: Global, word: &[u8]) -> Result<bool, AllocError>
    ensures { IfOk result (λ is. is ≡ is_unit_name word.now) }
{
    let parts = cut(alloc, word, b'/')?;
    let Some((krate, unit)) = both(&parts) else {
        return Ok(false);
    };
    if !tests_name(krate) {
        return Ok(false);
    }
    names_module(alloc, unit)
}

/// The name of a unit, as in `app/app::inner.stable`.
#[tactic(auto, unfolding(crate::specs::LineReading::unit_name_in))]
pub fn unit_name(alloc: Global, word: &[u8]) -> Result<Text, LineError>
    ensures { Gives result (unit_name_in word.now) }
{
    if !is_unit_name(alloc, word)? {
        return Err(LineError::Unfit);
    }
    Ok(Text::from_slice(alloc, word)?)
}
