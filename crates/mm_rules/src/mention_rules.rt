//! The rules on what a crate mentions.
ghost use Rattle.std.specs.Prelude.{◌≡◌, ◌++◌, [], ◌∷◌, is_none, not, nat_eq, OnOk};
ghost use Rattle.mm_definitions.specs.declared.kinds.Wanted as wants;
ghost use Rattle.mm_resolve.specs.Scopes.{Scope, Knows, leads_to};
ghost use Rattle.mm_rules.specs.MentionRules.{names, fits, fails_of, operands_fit, rule_if, broken_path, broken, at_line, faults_in};
ghost use Rattle.mm_definitions.specs.declared.kinds.Wanted.TheVariants.{One};
ghost use Rattle.mm_definitions.specs.declared.kinds.Kind.TheVariants.{Variant, Trait};

use crate::fault::{CrateRule, Fault};
use mm_definitions::{Kind, Named, Wanted};
use mm_mentions::{FieldsMention, Mention, PathMention, What};
use mm_resolve::ScopeTable;
use mm_terms::NoMemory;
use sqlite_items::Items;

/// Adds the rule at the line, where it fails.
fn add_if(
    fails: bool,
    rule: CrateRule,
    line: u32,
    faults: &mut Items<Fault>,
) -> Result<(), NoMemory>
    ensures { OnOk result (faults.new ≡ faults.old ++ at_line line (rule_if fails rule)) }
{
    if fails {
        faults.push(Fault { rule, line })?;
    }
    Ok(())
}

/// Whether so many operands are taken.
fn operands_fit(operands: Option<usize>, taken: usize) -> bool
    ensures { result ≡ operands_fit operands taken }
{
    match operands {
        Some(operands) => operands == taken,
        None => true,
    }
}

/// Whether there is a type argument for each type parameter, and an operand for each that is taken.
fn fits(path: &PathMention, named: &Named) -> bool
    ensures { result ≡ fits path.now named.now }
{
    path.type_args == named.type_params && operands_fit(path.operands, named.operands)
}

/// Whether a path leads to nothing of the wanted kind.
fn is_unknown(scope: &ScopeTable<'_>, path: &PathMention) -> bool
    ensures { (seen : Scope) → Knows scope.now seen → result ≡ is_none (leads_to seen path.now.wanted path.now.path) }
{
    scope.find(path.wanted, path.path.as_slice()).is_none()
}

/// Whether what a path leads to does not take what is written.
fn is_misfit(scope: &ScopeTable<'_>, path: &PathMention) -> bool
    ensures { (seen : Scope) → Knows scope.now seen → result ≡ fails_of (leads_to seen path.now.wanted path.now.path) (fits path.now) }
{
    match scope.find(path.wanted, path.path.as_slice()) {
        Some(named) => !fits(path, named),
        None => false,
    }
}

/// Whether a variant has another number of fields.
fn has_other_fields(scope: &ScopeTable<'_>, fields: &FieldsMention) -> bool
    ensures { (seen : Scope) → Knows scope.now seen → result ≡ fails_of (leads_to seen (One Variant) fields.now.path) (λ d. nat_eq fields.now.operands d.operands) }
{
    match scope.find(Wanted::One(Kind::Variant), fields.path.as_slice()) {
        Some(named) => fields.operands != named.operands,
        None => false,
    }
}

/// Whether a trait is not dyn compatible.
fn is_not_dyn(scope: &ScopeTable<'_>, path: &[u8]) -> bool
    ensures { (seen : Scope) → Knows scope.now seen → result ≡ fails_of (leads_to seen (One Trait) path.now) (λ d. d.is_dyn_compatible) }
{
    match scope.find(Wanted::One(Kind::Trait), path) {
        Some(named) => !named.is_dyn_compatible,
        None => false,
    }
}

/// Adds the faults of a path.
fn add_path(
    scope: &ScopeTable<'_>,
    path: &PathMention,
    line: u32,
    faults: &mut Items<Fault>,
) -> Result<(), NoMemory>
    ensures { OnOk result ((seen : Scope) → Knows scope.now seen → faults.new ≡ faults.old ++ at_line line (broken_path seen path.now)) }
{
    add_if(
        is_unknown(scope, path),
        CrateRule::UnknownName,
        line,
        faults,
    )?;
    let is_private = !scope.sees(path.wanted, path.path.as_slice());
    add_if(is_private, CrateRule::PrivateName, line, faults)?;
    add_if(is_misfit(scope, path), CrateRule::WrongArity, line, faults)?;
    Ok(())
}

/// Adds the faults of a mention.
fn add_faults(
    scope: &ScopeTable<'_>,
    mention: &Mention,
    faults: &mut Items<Fault>,
) -> Result<(), NoMemory>
    ensures { OnOk result ((seen : Scope) → Knows scope.now seen → faults.new ≡ faults.old ++ at_line mention.now.line (broken seen mention.now.what)) }
{
    let line = mention.line;
    let (fails, rule) = match &mention.what {
        What::Path(path) => return add_path(scope, path, line, faults),
        What::Fields(fields) => (has_other_fields(scope, fields), CrateRule::WrongArity),
        What::Scoped(is_known) => (!*is_known, CrateRule::UnknownName),
        What::Callable(operands) => (*operands == 0, CrateRule::WrongArity),
        What::Dyn(path) => (is_not_dyn(scope, path.as_slice()), CrateRule::NotDyn),
        What::Type(length) => (*length > 2_048, CrateRule::LongType),
        What::ImplParam(occurs) => (!*occurs, CrateRule::FreeParam),
        What::Head(is_local) => (!*is_local, CrateRule::Orphan),
        What::DropTarget(fits) => (!*fits, CrateRule::BadDropImpl),
        What::DropImpl(_) => return Ok(()),
    };
    add_if(fails, rule, line, faults)
}

/// Adds the faults of what a crate mentions.
pub fn add_mention_faults(
    scope: &ScopeTable<'_>,
    mentions: &[Mention],
    faults: &mut Items<Fault>,
) -> Result<(), NoMemory>
    ensures { OnOk result ((seen : Scope) → Knows scope.now seen → faults.new ≡ faults.old ++ faults_in seen mentions.now) }
{
    for mention in mentions {
        add_faults(scope, mention, faults)?;
    }
    Ok(())
}
