ghost use Rattle.std.specs.Prelude.{◌≡◌, [], ◌∷◌, ◌++◌, map, length, MatchOption, Option, Some, None};
ghost use Rattle.std.specs.Option.{option_map};
ghost use Rattle.mm_objects.specs.ObjectText.{Line};
ghost use Rattle.mm_objects.specs.LineReading.{only_of, both_of, last_two, named_in};

use crate::words::is;

/// The first word and the others.
pub fn next<'a, 'b>(words: &'b [&'a [u8]]) -> Option<(&'a [u8], &'b [&'a [u8]])>
    ensures { MatchOption result (map (λ w. w.now) words.now ≡ []) (λ p. map (λ w. w.now) words.now ≡ p.0.now ∷ map (λ w. w.now) p.1.now) }
{
    let (first, others) = words.split_first()?;
    Some((*first, others))
}

/// The only word.
pub fn only<'a>(words: &[&'a [u8]]) -> Option<&'a [u8]>
    ensures { option_map (λ w. w.now) result ≡ only_of (map (λ w. w.now) words.now) }
{
    match words {
        [word] => Some(*word),
        _ => None,
    }
}

/// Both words, where there are two.
pub fn both<'a>(words: &[&'a [u8]]) -> Option<(&'a [u8], &'a [u8])>
    ensures { option_map (λ p. (p.0.now, p.1.now)) result ≡ both_of (map (λ w. w.now) words.now) }
{
    match words {
        [word, next] => Some((*word, *next)),
        _ => None,
    }
}

/// The only word behind a word that must be there.
#[tactic(auto, unfolding(crate::specs::LineReading::named_in))]
pub fn named<'a>(key: &[u8], words: &[&'a [u8]]) -> Option<&'a [u8]>
    ensures { option_map (λ w. w.now) result ≡ named_in key.now (map (λ w. w.now) words.now) }
{
    let (first, second) = both(words)?;
    if is(first, key) { Some(second) } else { None }
}

/// All words but the last two, the last but one, and the last.
pub fn last_two<'a, 'b>(words: &'b [&'a [u8]]) -> Option<(&'b [&'a [u8]], &'a [u8], &'a [u8])>
    ensures { option_map (λ p. (map (λ w. w.now) p.0.now, p.1.now, p.2.now)) result ≡ last_two (map (λ w. w.now) words.now) }
{
    let (last, prefix) = words.split_last()?;
    let (mark, prefix) = prefix.split_last()?;
    Some((prefix, *mark, *last))
}
