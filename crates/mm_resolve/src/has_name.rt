//! What has a name, and what has type parameters.
ghost use Rattle.std.specs.Prelude.{◌≡◌, List};
ghost use Rattle.mm_ast.specs.declared.names.Name as names;

use mm_ast as ast;

/// What has a name.
pub trait HasName {
    /// Its name.
    ghost name: { Self → names.Name };

    /// Its name.
    fn name(&self) -> &ast::Name
        ensures { result.now ≡ name self.now };
}

/// What has type parameters.
pub trait HasParams {
    /// Its type parameters.
    ghost params: { Self → List names.Name };

    /// Its type parameters.
    fn params(&self) -> &[ast::Name]
        ensures { result.now ≡ params self.now };
}

impl HasName for ast::Name {
    ghost name = { λ name. name };

    fn name(&self) -> &ast::Name {
        self
    }
}

impl HasName for ast::Variant {
    ghost name = { λ variant. variant.name };

    fn name(&self) -> &ast::Name {
        &self.name
    }
}

impl HasName for ast::Method {
    ghost name = { λ method. method.name };

    fn name(&self) -> &ast::Name {
        &self.name
    }
}

impl HasName for ast::ImplMethod {
    ghost name = { λ method. method.function.name };

    fn name(&self) -> &ast::Name {
        &self.function.name
    }
}

impl HasName for ast::Crate {
    ghost name = { λ krate. krate.name };

    fn name(&self) -> &ast::Name {
        &self.name
    }
}

impl HasParams for ast::Method {
    ghost params = { λ method. method.type_params };

    fn params(&self) -> &[ast::Name] {
        self.type_params.as_slice()
    }
}

impl HasParams for ast::ImplMethod {
    ghost params = { λ method. method.function.type_params };

    fn params(&self) -> &[ast::Name] {
        self.function.type_params.as_slice()
    }
}
