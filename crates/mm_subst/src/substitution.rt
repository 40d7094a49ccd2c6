ghost use Rattle.std.specs.Prelude.{◌≡◌, ◌<◌, ◌^◌, IfOk};
ghost use Rattle.std.specs.Option.{SomeIff};
ghost use Rattle.mm_terms.specs.Length.{lengths_of};
ghost use Rattle.mm_terms.specs.Substitution.{subst, subst_all};

use mm_terms::{NoMemory, Ty, Tys};
use sqlite_items::Items;
use std::alloc::Global;

/// The type with `args[i]` in place of each parameter i, and all else as it is; a parameter past the arguments stays
/// too. A result of length 2^32 or more is not made: that is `NoMemory` too. The time grows with the length of the
/// result.
pub fn apply(alloc: Global, ty: &Ty, args: &[Ty]) -> Result<Ty, NoMemory>
    ensures { IfOk result (λ t. t ≡ subst args.now ty.now) }
{
    ty.substitute(alloc, args)
}

/// The same in each of several types, in their order.
pub fn apply_all(alloc: Global, types: &[Ty], args: &[Ty]) -> Result<Tys, NoMemory>
    ensures { IfOk result (λ tys. tys ≡ subst_all args.now types.now) }
{
    let mut applied = Vec::with_capacity(alloc, types.len())?;
    for ty in types {
        applied.push(apply(alloc, ty, args)?)?;
    }
    Ok(Items::from_vec(applied))
}

/// The sum of the lengths of what `apply_all` would make, or `None` where it is 2^32 or more. Nothing is made: the time
/// grows with the lengths of the types as they are written.
pub fn applied_length(types: &[Ty], args: &[Ty]) -> Option<u32>
    ensures { SomeIff result (lengths_of (subst_all args.now types.now) < 2 ^ 32) (lengths_of (subst_all args.now types.now)) }
{
    let mut total: u32 = 0;
    for ty in types {
        total = total.checked_add(ty.substituted_length(args)?)?;
    }
    Some(total)
}
