ghost use Rattle.std.specs.Prelude.{◌≡◌, [], ℕ, List, map, IfSome};
ghost use Rattle.mm_tool.specs.Words.{AreSteps, AreWords};
ghost use Rattle.mm_tool.specs.declared.words.Command.{Command};

use crate::limits::read_limits;
use crate::numbers::count;
use mm_plain::Opts;

/// The greatest number that `--steps` takes.
const STEPS_MOST: u32 = 10_000_000;

/// The number of steps where `--steps` is not given.
const STEPS: u32 = 1_000_000;

/// What the program is asked to do.
#[derive(Clone, Copy, Debug, PartialEq, Eq)]
pub enum Command {
    /// Lists the mono items of a text.
    List(Opts),
    /// Writes the objects of a text.
    Build(Opts),
    /// Links objects, and runs them for so many steps at most.
    Link(u32),
    /// Writes the canonical form of a text.
    Fmt,
}

/// Reads the option `--steps=N`, from 0 to 10,000,000, where there is one.
///
/// `None` exactly where the words are others.
fn read_steps(options: &[&str]) -> Option<u32>
    ensures some { IfSome result (AreSteps (map (λ w. w.now) options.now)) }
    ensures none { result ≡ None → (steps : ℕ) → AreSteps (map (λ w. w.now) options.now) steps → ⊥ }
{
    match options {
        [] => Some(STEPS),
        [word] => count(word.strip_prefix("--steps=")?, STEPS_MOST),
        _ => None,
    }
}

/// Reads no options.
///
/// `None` exactly where there are some.
fn read_none(options: &[&str]) -> Option<()>
    ensures some { IfSome result (λ none. map (λ w. w.now) options.now ≡ []) }
    ensures none { result ≡ None → map (λ w. w.now) options.now ≡ [] → ⊥ }
{
    match options {
        [] => Some(()),
        _ => None,
    }
}

/// Reads the words after the program's name: `list` or `build` with the options `--length=N`, from 1 to 2,048, and
/// `--items=N`, from 1 to 131,072, or `link` with the option `--steps=N`, from 0 to 10,000,000, or `fmt` with none.
/// Options come in any order, each at most once.
///
/// `None` exactly where they are no command line.
pub fn read_words(words: &[&str]) -> Option<Command>
    ensures some { IfSome result (AreWords (map (λ w. w.now) words.now)) }
    ensures none { result ≡ None → (command : Command) → AreWords (map (λ w. w.now) words.now) command → ⊥ }
{
    let (verb, options) = words.split_first()?;
    if *verb == "list" {
        return Some(Command::List(read_limits(options)?));
    }
    if *verb == "build" {
        return Some(Command::Build(read_limits(options)?));
    }
    if *verb == "link" {
        return Some(Command::Link(read_steps(options)?));
    }
    if *verb == "fmt" {
        read_none(options)?;
        return Some(Command::Fmt);
    }
    None
}

/// Words mean one command.
pub fn one_command()
    ensures { (words : List (List ℕ)) (one other : Command) → AreWords words one → AreWords words other → one ≡ other }
{}
