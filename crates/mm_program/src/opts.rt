ghost use Rattle.std.specs.Prelude.{◌≡◌, true, false};

/// What a caller chooses. Each number that is called this project's own comes from no other compiler.
#[derive(Clone, Copy, Debug, PartialEq, Eq)]
pub struct Opts {
    /// Whether collection is eager: what needs no type arguments is made whether or not it is used. Else it is lazy, and
    /// what is used is made. Both strategies are those of the rustc-dev-guide, "Monomorphization".
    pub eager: bool,
    /// Whether a crate takes the instances that an earlier crate has made, and does not make them again.
    pub share: bool,
    /// The greatest number of codegen units of one crate, from 1 to 256.
    pub units: u32,
    /// The greatest length of an item, the number of constructors in its types with repeats counted: from 1 to 2,048.
    pub length: u32,
    /// The greatest number of items of one crate, from 1 to 131,072.
    pub items: u32,
    /// The number of workers, from 1 to 64.
    pub workers: u32,
    /// The number of steps after which a run is still running, from 0 to 10,000,000.
    pub steps: u32,
}

impl Default for Opts {
    ghost use Rattle.mm_program.specs.Defaults.{AreDefaults};

    ghost is_default = { AreDefaults };

    /// Lazy, with sharing, on one worker. The limits and their numbers are this project's own; that there are 16 units is also
    /// the number of rustc's builds without incremental compilation (the rustc book, `codegen-units`).
    fn default() -> Opts {
        Opts {
            eager: false,
            share: true,
            units: 16,
            length: 512,
            items: 20_000,
            workers: 1,
            steps: 1_000_000,
        }
    }
}
