ghost use Rattle.std.specs.Prelude.{◌≡◌, ◌==◌, codes, map, IfOk, Option, Some, None};
ghost use Rattle.std.specs.List.{slice_split};
ghost use Rattle.std.specs.Option.{option_map};
ghost use Rattle.std.specs.Str.{bytes_eq};
ghost use Rattle.mm_objects.specs.ObjectNames.{is_code};
ghost use Rattle.mm_objects.specs.LineReading.{is_form_of_code, is_code_symbol, behind, place_in, copied_in, moved_in, truth_in, literal_in, operand_in, op_in, linkage_in, symbol_in, callee_in};
ghost use Rattle.mm_objects.specs.Given.{Gives};

use crate::line_error::LineError;
use crate::number::number_below;
use crate::objects::{Linkage, ObjBase, ObjCallee, ObjOperand, ObjPlace};
use mm_names::decimal;
use mm_plain::Op;
use mm_symbols::{SymItem, SymbolForm, read_symbol};
use mm_terms::Text;
use std::alloc::{AllocError, Global};

/// Whether a word is this one.
pub fn is(word: &[u8], other: &[u8]) -> bool
    ensures { result ≡ bytes_eq word.now other.now }
{
    word == other
}

/// What stands behind a prefix of a word.
pub fn behind<'a>(prefix: &[u8], word: &'a [u8]) -> Option<&'a [u8]>
    ensures { option_map (λ x. x.now) result ≡ behind prefix.now word.now }
{
    word.strip_prefix(prefix)
}

/// `_` and the number of a local.
#[tactic(auto, unfolding(crate::specs::LineReading::place_in))]
pub fn place(locals: u32, word: &[u8]) -> Option<ObjPlace>
    ensures { result ≡ place_in locals word.now }
{
    let digits = behind(b"_", word)?;
    let local = number_below(digits, u64::from(locals))?;
    Some(ObjPlace {
        base: ObjBase::Local(local),
    })
}

#[tactic(auto, unfolding(crate::specs::LineReading::copied_in))]
fn copied(locals: u32, word: &[u8]) -> Option<ObjOperand>
    ensures { result ≡ copied_in locals word.now }
{
    let spelled = behind(b"copy:", word)?;
    Some(ObjOperand::Copy(place(locals, spelled)?))
}

#[tactic(auto, unfolding(crate::specs::LineReading::moved_in))]
fn moved(locals: u32, word: &[u8]) -> Option<ObjOperand>
    ensures { result ≡ moved_in locals word.now }
{
    let spelled = behind(b"move:", word)?;
    Some(ObjOperand::Move(place(locals, spelled)?))
}

#[tactic(auto, unfolding(crate::specs::LineReading::truth_in))]
fn truth(word: &[u8]) -> Option<ObjOperand>
    ensures { result ≡ truth_in word.now }
{
    if is(word, b"true") {
        return Some(ObjOperand::Truth(true));
    }
    if is(word, b"false") {
        return Some(ObjOperand::Truth(false));
    }
    None
}

#[tactic(auto, unfolding(crate::specs::LineReading::literal_in))]
fn literal(word: &[u8]) -> Option<ObjOperand>
    ensures { result ≡ literal_in word.now }
{
    Some(ObjOperand::Num(decimal(word, u64::MAX)?))
}

/// A place with `copy:` or `move:`, a truth value or a number.
#[tactic(auto, unfolding(crate::specs::LineReading::operand_in))]
pub fn operand(locals: u32, word: &[u8]) -> Option<ObjOperand>
    ensures { result ≡ operand_in locals word.now }
{
    copied(locals, word)
        .or(moved(locals, word))
        .or(truth(word))
        .or(literal(word))
}

#[tactic(auto, unfolding(crate::specs::LineReading::op_in))]
pub fn operation(word: &[u8]) -> Option<Op>
    ensures { result ≡ op_in word.now }
{
    if is(word, b"add") {
        return Some(Op::Add);
    }
    if is(word, b"sub") {
        return Some(Op::Sub);
    }
    if is(word, b"mul") {
        return Some(Op::Mul);
    }
    if is(word, b"div") {
        return Some(Op::Div);
    }
    if is(word, b"rem") {
        return Some(Op::Rem);
    }
    if is(word, b"eq") {
        return Some(Op::Eq);
    }
    if is(word, b"lt") {
        return Some(Op::Lt);
    }
    None
}

#[tactic(auto, unfolding(crate::specs::LineReading::linkage_in))]
pub fn linkage(word: &[u8]) -> Option<Linkage>
    ensures { result ≡ linkage_in word.now }
{
    if is(word, b"External") {
        return Some(Linkage::External);
    }
    if is(word, b"Internal") {
        return Some(Linkage::Internal);
    }
    None
}

/// Whether it is code that a symbol names.
fn is_code(item: &SymItem) -> bool
    ensures { result ≡ is_code item.now }
{
    match item {
        SymItem::Fn(..)
        | SymItem::Closure(..)
        | SymItem::Method(_)
        | SymItem::Glue(_)
        | SymItem::Shim(_) => true,
        SymItem::Static(_) => false,
    }
}

/// Whether it is a symbol, and one of code.
fn is_form_of_code(found: &Option<SymbolForm>) -> bool
    ensures { result ≡ is_form_of_code found.now }
{
    match found {
        Some(form) => is_code(&form.item),
        None => false,
    }
}

/// Whether a word is the symbol of code.
fn is_code_symbol(alloc: Global, word: &[u8]) -> Result<bool, AllocError>
    ensures { IfOk result (λ is. is ≡ is_code_symbol word.now) }
{
    let found = read_symbol(alloc, word)?;
    Ok(is_form_of_code(&found))
}

/// The symbol of code.
#[tactic(auto, unfolding(crate::specs::LineReading::symbol_in))]
pub fn symbol(alloc: Global, word: &[u8]) -> Result<Text, LineError>
    ensures { Gives result (symbol_in word.now) }
{
    if !is_code_symbol(alloc, word)? {
        return Err(LineError::Unfit);
    }
    Ok(Text::from_slice(alloc, word)?)
}

/// `fn:` and a symbol.
#[tactic(auto, unfolding(crate::specs::LineReading::callee_in))]
pub fn callee(alloc: Global, word: &[u8]) -> Result<ObjCallee, LineError>
    ensures { Gives result (callee_in word.now) }
{
    let spelled = behind(b"fn:", word).ok_or(LineError::Unfit)?;
    Ok(ObjCallee::Fn(symbol(alloc, spelled)?))
}

/// The parts between the bytes at which a list of bytes is cut.
pub fn cut(alloc: Global, bytes: &[u8], at: u8) -> Result<Vec<&[u8]>, AllocError>
    ensures { IfOk result (λ parts. map (λ part. part.now) parts.items ≡ slice_split (λ b. b == at) bytes.now) }
{
    bytes.split(|b| *b == at).collect(alloc)
}
