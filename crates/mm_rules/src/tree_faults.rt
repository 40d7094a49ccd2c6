//! The rules of a whole tree.
ghost use Rattle.std.specs.Prelude.{◌≡◌, [], ◌++◌, IfSome, IfNone, IfOk, OnOk};
ghost use Rattle.mm_mentions.specs.ItemMentions.{mentions_in};
ghost use Rattle.mm_resolve.specs.Doubles.{repeated};
ghost use Rattle.mm_resolve.specs.Scopes.{Scope, Knows};
ghost use Rattle.mm_rules.specs.DropTargets.{targets_in};
ghost use Rattle.mm_rules.specs.MentionRules.{faults_in};
ghost use Rattle.mm_rules.specs.TreeFaults.{start, all_defined, faults_behind, targets_of, faults_at, faults_of, KeepsRules, IsFirstFault};

use crate::drop_targets::add_targets;
use crate::fault::{CrateRule, Fault};
use crate::main_rule::bad_main;
use crate::mention_rules::add_mention_faults;
use crate::order::first_fault;
use mm_ast as ast;
use mm_definitions::{Named, definitions};
use mm_mentions::mentions;
use mm_resolve::{ScopeTable, doubled, repeated};
use mm_terms::NoMemory;
use sqlite_items::Items;
use std::alloc::Global;

/// What each crate of a text defines, for the crates in their order: an element for each crate. The definitions of a crate have
/// the numbers behind those of the crates before it.
///
/// # Errors
///
/// Out of memory. It comes too where a number is 2^32 or more, which no text within the limit brings about.
pub fn all_definitions(alloc: Global, crates: &[ast::Crate]) -> Result<Vec<Items<Named>>, NoMemory>
    ensures defined { IfOk result (λ defined. defined.items ≡ all_defined start crates.now) }
{
    let mut defined = Vec::new(alloc);
    let mut first = 0;
    for krate in crates {
        let found = definitions(alloc, first, krate)?;
        defined.push(found.named)?;
        first = found.next;
    }
    Ok(defined)
}

/// Adds the faults of what a crate mentions in its scope, and the types that its Drop impls are for.
fn add_crate(
    alloc: Global,
    scope: &ScopeTable<'_>,
    krate: &ast::Crate,
    faults: &mut Items<Fault>,
    targets: &mut Items<ast::Name>,
) -> Result<(), NoMemory>
    ensures faults { OnOk result ((seen : Scope) → Knows scope.now seen → faults.new ≡ faults.old ++ faults_in seen (mentions_in krate.now)) }
    ensures targets { OnOk result (targets.new ≡ targets.old ++ targets_in (mentions_in krate.now)) }
{
    let mentioned = mentions(alloc, krate)?;
    add_mention_faults(scope, mentioned.as_slice(), faults)?;
    add_targets(alloc, mentioned.as_slice(), targets)?;
    Ok(())
}

/// Adds the faults of what crates mention, of each in its own scope, and the types that their Drop impls are for.
fn add_crates(
    alloc: Global,
    crates: &[ast::Crate],
    defined: &[Items<Named>],
    faults: &mut Items<Fault>,
    targets: &mut Items<ast::Name>,
) -> Result<(), NoMemory>
    requires { defined.now ≡ all_defined start crates.now }
    ensures faults { OnOk result (faults.new ≡ faults.old ++ faults_behind start crates.now) }
    ensures targets { OnOk result (targets.new ≡ targets.old ++ targets_of crates.now) }
{
    let mut scope = ScopeTable::new(alloc);
    'each: for place in 0..crates.len() {
        scope = scope.enter(alloc, defined[place].as_slice())?;
        add_crate(alloc, &scope, &crates[place], faults, targets)?;
    }
    Ok(())
}

/// Adds the faults of what crates mention, and answers the types that their Drop impls are for.
fn add_mentioned(
    alloc: Global,
    crates: &[ast::Crate],
    faults: &mut Items<Fault>,
) -> Result<Items<ast::Name>, NoMemory>
    ensures faults { OnOk result (faults.new ≡ faults.old ++ faults_behind start crates.now) }
    ensures targets { IfOk result (λ targets. targets ≡ targets_of crates.now) }
{
    let defined = all_definitions(alloc, crates)?;
    let mut targets = Items::new(alloc);
    add_crates(alloc, crates, defined.as_slice(), faults, &mut targets)?;
    Ok(targets)
}

/// Adds a rule at each of the lines.
fn add_at(rule: CrateRule, lines: &[u32], faults: &mut Items<Fault>) -> Result<(), NoMemory>
    ensures { OnOk result (faults.new ≡ faults.old ++ faults_at rule lines.now) }
{
    for line in lines {
        faults.push(Fault { rule, line: *line })?;
    }
    Ok(())
}

/// All faults of a text.
#[tactic(auto, unfolding(crate::specs::TreeFaults::faults_of))]
fn faults_of(alloc: Global, crates: &[ast::Crate]) -> Result<Items<Fault>, NoMemory>
    ensures { IfOk result (λ faults. faults ≡ faults_of crates.now) }
{
    let mut faults = Items::new(alloc);
    let targets = add_mentioned(alloc, crates, &mut faults)?;
    let twice = doubled(alloc, crates)?;
    add_at(CrateRule::DoubleName, twice.as_slice(), &mut faults)?;
    let mains = bad_main(alloc, crates)?;
    add_at(CrateRule::BadMain, mains.as_slice(), &mut faults)?;
    let second = repeated(alloc, targets.as_slice())?;
    add_at(CrateRule::BadDropImpl, second.as_slice(), &mut faults)?;
    Ok(faults)
}

/// The first fault of a tree, or none where it keeps the rules.
///
/// # Errors
///
/// Out of memory.
pub fn check(alloc: Global, tree: &ast::Ast) -> Result<Option<Fault>, NoMemory>
    ensures fault { IfOk result (λ found. IfSome found (IsFirstFault tree.now)) }
    ensures kept { IfOk result (λ found. IfNone found (KeepsRules tree.now)) }
{
    let faults = faults_of(alloc, tree.crates.as_slice())?;
    Ok(first_fault(faults.as_slice()))
}
