ghost use Rattle.std.specs.Prelude.{◌≡◌, OnOk, [], ◌∷◌, ◌++◌, flat_map};
ghost use Rattle.mm_lex.specs.Lexemes as lexemes;
ghost use Rattle.mm_spell.specs.Listed.{kinds};
ghost use Rattle.mm_spell_bodies.specs.BodyTokens.{place_tokens, projection_tokens, static_place_tokens, step_tokens};

use mm_ast::{Place, Projection, StaticPlace, Step};
use mm_lex::Punct;
use mm_names::Word;
use mm_spell::Spelled;
use mm_spell::names::{write_name, write_number, write_path, write_punct, write_word};
use std::alloc::AllocError;

/// Writes a local by its number.
pub(crate) fn write_local<'a>(number: u64, out: &mut Vec<Spelled<'a>>) -> Result<(), AllocError>
    ensures { OnOk result (kinds out.new.items ≡ kinds out.old.items ++ lexemes.Local number ∷ []) }
{
    out.push(Spelled::Local(number))?;
    Ok(())
}

/// Writes a projection.
fn write_step<'a>(step: &'a Step, out: &mut Vec<Spelled<'a>>) -> Result<(), AllocError>
    ensures { OnOk result (kinds out.new.items ≡ kinds out.old.items ++ step_tokens step.now) }
{
    match step {
        Step::Field(number) => {
            write_punct(Punct::Dot, out)?;
            write_number(*number, out)
        }
        Step::Deref => {
            write_punct(Punct::Dot, out)?;
            write_punct(Punct::Star, out)
        }
        Step::Variant(name) => {
            write_punct(Punct::At, out)?;
            write_name(name, out)
        }
    }
}

/// Writes projections.
fn write_steps<'a>(steps: &'a [Step], out: &mut Vec<Spelled<'a>>) -> Result<(), AllocError>
    ensures { OnOk result (kinds out.new.items ≡ kinds out.old.items ++ flat_map step_tokens steps.now) }
{
    for step in steps {
        write_step(step, out)?;
    }
    Ok(())
}

/// Writes a local and the projections from it.
fn write_projection<'a>(
    projection: &'a Projection,
    out: &mut Vec<Spelled<'a>>,
) -> Result<(), AllocError>
    ensures { OnOk result (kinds out.new.items ≡ kinds out.old.items ++ projection_tokens projection.now) }
{
    write_local(u64::from(projection.local.number), out)?;
    write_step(&projection.first, out)?;
    write_steps(projection.others.as_slice(), out)
}

/// Writes a static and the projections from it.
fn write_static_place<'a>(
    place: &'a StaticPlace,
    out: &mut Vec<Spelled<'a>>,
) -> Result<(), AllocError>
    ensures { OnOk result (kinds out.new.items ≡ kinds out.old.items ++ static_place_tokens place.now) }
{
    write_word(Word::Static, out)?;
    write_path(&place.path, out)?;
    write_steps(place.steps.as_slice(), out)
}

/// Writes a place.
pub(crate) fn write_place<'a>(
    place: &'a Place,
    out: &mut Vec<Spelled<'a>>,
) -> Result<(), AllocError>
    ensures { OnOk result (kinds out.new.items ≡ kinds out.old.items ++ place_tokens place.now) }
{
    match place {
        Place::Local(local) => write_local(u64::from(local.number), out),
        Place::Projection(projection) => write_projection(projection.get(), out),
        Place::Static(place) => write_static_place(place.get(), out),
    }
}
