//! Runs an image of objects, step by step.
#![tactic(auto)]

mod calls;
mod machine;
mod operands;
mod run;
mod statements;
mod step;
mod values;

pub use run::run_image;

#[cfg(test)]
mod tests;
