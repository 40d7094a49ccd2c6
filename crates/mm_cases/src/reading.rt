ghost use Rattle.std.specs.Prelude.{◌≤◌, length};

use anyhow::{Result, bail};
use mm_lex::{TextFault, lex};
use mm_parse::parse;
use mm_print::print;
use std::alloc::Global;

/// The greatest number of bytes of a text.
const TEXT_LIMIT: usize = 4_194_304;

/// Reads a text into its tree, and prints the tree.
fn canonical(alloc: Global, text: &[u8]) -> Result<Vec<u8>, TextFault>
    requires { length text.now ≤ 4194304 }
{
    let tokens = lex(alloc, text)?;
    let tree = parse(alloc, text, &tokens)?;
    Ok(print(alloc, &tree)?)
}

/// How a text is printed: status 0 and its canonical text, or status 3 and the line `LINE:COLUMN RULE` for its first fault.
pub(crate) fn printing_of(alloc: Global, text: &[u8]) -> Result<(u8, Vec<u8>)> {
    if text.len() > TEXT_LIMIT {
        bail!("a text of more than 4,194,304 bytes");
    }
    match canonical(alloc, text) {
        Ok(printed) => Ok((0, printed)),
        Err(TextFault::BadText { line, column, rule }) => {
            let said = format!(in alloc; "{line}:{column} {rule:?}\n")?;
            Ok((3, said.into_bytes()))
        }
        Err(TextFault::NoMemory) => bail!("no memory"),
    }
}

/// Whether a text that was printed is read, and printed as it is. One that is longer than a text may be is not read again.
fn is_kept(alloc: Global, printed: &[u8]) -> Result<bool> {
    if printed.len() > TEXT_LIMIT {
        return Ok(true);
    }
    let (status, again) = printing_of(alloc, printed)?;
    Ok(status == 0 && again.as_slice() == printed)
}

/// How a text is read: status 0 and the line `ok`, or `printed otherwise` where its canonical text has another one; or
/// status 3 and the line `LINE:COLUMN RULE` for its first fault.
pub(crate) fn reading_of(alloc: Global, text: &[u8]) -> Result<(u8, Vec<u8>)> {
    let (status, said) = printing_of(alloc, text)?;
    if status != 0 {
        return Ok((status, said));
    }
    if is_kept(alloc, &said)? {
        return Ok((0, b"ok\n".to_vec(alloc)?));
    }
    Ok((0, b"printed otherwise\n".to_vec(alloc)?))
}
