//! Signatures and bounds.
ghost use Rattle.std.specs.List.{list_all};
ghost use Rattle.std.specs.Prelude.{◌≡◌};
ghost use Rattle.mm_written.specs.Items.{written_signature, written_bound_form, written_bound, written_bounds};

use crate::lists::few;
use crate::types::{written_args, written_result, written_type, written_types};
use mm_ast::{Bound, BoundForm, Signature};

#[tactic(auto, unfolding(crate::specs::Items::written_signature))]
pub fn written_signature(signature: &Signature) -> bool
    ensures { result ≡ written_signature signature.now }
{
    written_types(signature.params.as_slice()) && written_result(&signature.result)
}

fn written_bound_form(form: &BoundForm) -> bool
    ensures { result ≡ written_bound_form form.now }
{
    match form {
        BoundForm::Trait(named) => written_args(named),
        BoundForm::Call => true,
    }
}

#[tactic(auto, unfolding(crate::specs::Items::written_bound))]
fn written_bound(bound: &Bound) -> bool
    ensures { result ≡ written_bound bound.now }
{
    written_type(&bound.ty) && written_bound_form(&bound.form)
}

fn each_bound(bounds: &[Bound]) -> bool
    ensures { result ≡ list_all written_bound bounds.now }
{
    bounds.iter().all(|bound| written_bound(bound))
}

#[tactic(auto, unfolding(crate::specs::Items::written_bounds))]
pub fn written_bounds(bounds: &[Bound]) -> bool
    ensures { result ≡ written_bounds bounds.now }
{
    few(bounds) && each_bound(bounds)
}
