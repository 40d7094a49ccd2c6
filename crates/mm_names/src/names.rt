ghost use Rattle.std.specs.Prelude.{◌≡◌, ◌↔◌, ◌&&◌, IsTrue, drop};
ghost use Rattle.std.specs.List.{list_all};
ghost use Rattle.std.specs.Str.{chars};
ghost use Rattle.unicode_ident.specs.Ident.{is_xid_continue};
ghost use Rattle.mm_names.specs.Names.{starts_name, IsName};
ghost use Rattle.mm_names.specs.Runs.{first_starts, is_named, run_in, is_name};

use crate::run::{Run, kind_of_run};
use unicode_ident::{is_xid_continue, is_xid_start};

/// Whether a name may start with the character.
pub fn starts_name(c: char) -> bool
    ensures { result ≡ starts_name c }
{
    is_xid_start(c) || c == '_'
}

/// Whether the first character of a text may start a name.
fn first_starts(text: &str) -> bool
    ensures { result ≡ first_starts (chars text.now) }
{
    match text.chars().next() {
        Some(first) => starts_name(first),
        None => false,
    }
}

/// Whether all characters of a text but the first may go on in a name.
fn others_continue(text: &str) -> bool
    ensures { result ≡ list_all is_xid_continue (drop 1 (chars text.now)) }
{
    text.chars().skip(1).all(is_xid_continue)
}

/// Whether the characters of a text may be those of a name: the first may start one, and the others may go on in one.
fn is_name_like(text: &str) -> bool
    ensures { result ≡ (first_starts (chars text.now) && list_all is_xid_continue (drop 1 (chars text.now))) }
{
    first_starts(text) && others_continue(text)
}

/// Whether the bytes are neither a word nor kept for locals and labels, and few enough for a name.
fn is_named(bytes: &[u8]) -> bool
    ensures { result ≡ is_named (run_in bytes.now) }
{
    matches!(kind_of_run(bytes), Some(Run::Name))
}

/// Whether the bytes of a text are a name.
#[tactic(auto, using(crate::proofs::RunLemmas::is_name_of_utf8))]
fn is_text_name(text: &str) -> bool
    ensures { result ≡ is_name text.now }
{
    is_name_like(text) && is_named(text.as_bytes())
}

/// Whether the bytes are a name.
pub fn is_name(bytes: &[u8]) -> bool
    ensures { IsTrue result ↔ IsName bytes.now }
{
    match str::from_utf8(bytes) {
        Ok(text) => is_text_name(text),
        Err(_) => false,
    }
}
