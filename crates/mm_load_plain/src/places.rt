ghost use Rattle.std.specs.Prelude.{◌≡◌};
ghost use Rattle.mm_load_plain.specs.WrittenPlace.{local_of, place_line};

use mm_ast as ast;

/// The number of the local in which a place lies.
pub fn local_of(place: &ast::Place) -> u32
    ensures { result ≡ local_of place.now }
{
    match place {
        ast::Place::Local(local) => local.number,
        ast::Place::Projection(projection) => projection.get().local.number,
        ast::Place::Static(_) => 0,
    }
}

/// The line of the first token of a place.
pub fn place_line(place: &ast::Place) -> u32
    ensures { result ≡ place_line place.now }
{
    match place {
        ast::Place::Local(local) => local.line,
        ast::Place::Projection(projection) => projection.get().local.line,
        ast::Place::Static(place) => place.get().line,
    }
}
