//! Places with their statics looked up.
ghost use Rattle.std.specs.Prelude.{◌≡◌, ◌++◌, ◌∷◌, cond, nat_lt, IfOk, OnOk};
ghost use Rattle.mm_lower.specs.Places.{no_number, step_of, steps_of, place_of};
ghost use Rattle.mm_lower.specs.Seen.{paths};

use crate::names::{Names, def_of};
use mm_ast as ast;
use mm_definitions::{Kind, Wanted};
use mm_program::{Base, Place, Step, Steps};
use mm_terms::NoMemory;
use std::alloc::Global;

/// The number of a field, or one that no field has.
fn field_number(number: u64) -> u32
    ensures { result ≡ cond (nat_lt number no_number) number no_number }
{
    if number < u64::from(u32::MAX) {
        return number as u32;
    }
    u32::MAX
}

#[tactic(auto, unfolding(crate::specs::Places::step_of))]
fn lower_step(step: &ast::Step) -> Step
    ensures { result ≡ step_of step.now }
{
    match step {
        ast::Step::Field(number) => Step::Field(field_number(*number)),
        ast::Step::Deref => Step::Deref,
        ast::Step::Variant(_) => Step::Variant(u32::MAX),
    }
}

/// Adds projections.
fn add_steps(steps: &[ast::Step], out: &mut Steps) -> Result<(), NoMemory>
    ensures { OnOk result (out.new ≡ out.old ++ steps_of steps.now) }
{
    for step in steps {
        out.push(lower_step(step))?;
    }
    Ok(())
}

/// The projections of a place that has some.
fn steps_behind(alloc: Global, projection: &ast::Projection) -> Result<Steps, NoMemory>
    ensures { IfOk result (λ steps. steps ≡ step_of projection.now.first ∷ steps_of projection.now.others) }
{
    let mut steps = Steps::new(alloc);
    steps.push(lower_step(&projection.first))?;
    add_steps(projection.others.as_slice(), &mut steps)?;
    Ok(steps)
}

/// The place that is written.
#[tactic(auto, unfolding(crate::specs::Places::place_of))]
pub fn lower_place(alloc: Global, names: &Names<'_>, place: &ast::Place) -> Result<Place, NoMemory>
    ensures { IfOk result (λ p. p ≡ place_of (paths names.now) place.now) }
{
    match place {
        ast::Place::Local(local) => Ok(Place {
            base: Base::Local(local.number),
            steps: Steps::new(alloc),
        }),
        ast::Place::Projection(projection) => {
            let projection = projection.get();
            Ok(Place {
                base: Base::Local(projection.local.number),
                steps: steps_behind(alloc, projection)?,
            })
        }
        ast::Place::Static(place) => {
            let place = place.get();
            let def = def_of(alloc, names, Wanted::One(Kind::Static), &place.path)?;
            let mut steps = Steps::new(alloc);
            add_steps(place.steps.as_slice(), &mut steps)?;
            Ok(Place {
                base: Base::Static(def),
                steps,
            })
        }
    }
}
