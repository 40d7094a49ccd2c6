//! How many parts a list may have.
ghost use Rattle.std.specs.Prelude.{◌≡◌, ◌+◌, length, nat_lt};
ghost use Rattle.mm_written.specs.Lists.{few, some, few_in_self};

/// Whether there are fewer than 2^32.
#[tactic(auto, unfolding(crate::specs::Lists::few))]
pub fn few<T>(parts: &[T]) -> bool
    ensures { result ≡ few parts.now }
{
    parts.len() < 4_294_967_296
}

/// Whether there is one at least.
pub fn some<T>(parts: &[T]) -> bool
    ensures { result ≡ some parts.now }
{
    !parts.is_empty()
}

/// Whether there are fewer than 2^32 together with one before them.
pub fn few_behind_one<T>(others: &[T]) -> bool
    ensures { result ≡ nat_lt (1 + length others.now) 4294967296 }
{
    others.len() < 4_294_967_295
}

/// Whether the reference to a closure's own type over these type parameters is a type whose constructors can be counted.
pub fn few_in_self<T>(params: &[T]) -> bool
    ensures { result ≡ few_in_self params.now }
{
    params.len() < 4_294_967_294
}
