ghost use Rattle.std.specs.Prelude.{◌≡◌, ◌==◌, ◌++◌, [], ◌∷◌, ℕ, List, map, IfOk, Option};
ghost use Rattle.mm_objects.specs.ObjectForms.{IsUnitText, IsBadAt};
ghost use Rattle.std.specs.List.{slice_split};
ghost use Rattle.mm_objects.specs.Given.{Gives, GivesAt};
ghost use Rattle.mm_objects.specs.TextReading.{next_in, words_in, at_line, done_of, if_none, text_in};

use crate::fault::ObjFault;
use crate::line_error::LineError;
use crate::objects::Objects;
use crate::progress::Progress;
use crate::words::cut;
use std::alloc::Global;

/// What a further line makes of what was read.
fn after(
    alloc: Global,
    several: bool,
    progress: Progress,
    line: &[u8],
) -> Result<Progress, LineError>
    ensures { Gives result (next_in several progress (words_in line.now)) }
{
    let words = cut(alloc, line, b' ')?;
    progress.next(alloc, several, &words)
}

/// The error of the line with the number.
fn numbered<T>(number: u32, read: Result<T, LineError>) -> Result<T, ObjFault>
    ensures { (line : Option T) → Gives read line → GivesAt result (at_line number line) }
{
    match read {
        Ok(value) => Ok(value),
        Err(LineError::Unfit) => Err(ObjFault::BadObjects(number)),
        Err(LineError::NoMemory) => Err(ObjFault::NoMemory),
    }
}

/// The objects, where all of the text is read.
fn done(progress: Progress) -> Option<Objects>
    ensures { result ≡ done_of progress }
{
    match progress {
        Progress::Done(objects) => Some(objects),
        Progress::Start
        | Progress::Headed
        | Progress::Main(_)
        | Progress::Unit(_)
        | Progress::Code(_)
        | Progress::Block(..) => None,
    }
}

/// The objects, where nothing stands behind the last line.
fn finish(progress: Progress, last: &[u8]) -> Result<Objects, LineError>
    ensures { Gives result (if_none last.now (done_of progress)) }
{
    match last {
        [] => done(progress).ok_or(LineError::Unfit),
        _ => Err(LineError::Unfit),
    }
}

/// The objects of lines and of the bytes behind the last of them.
#[tactic(auto, unfolding(crate::specs::TextReading::text_in))]
fn read_lines(
    alloc: Global,
    several: bool,
    lines: &[&[u8]],
    last: &[u8],
) -> Result<Objects, ObjFault>
    ensures { GivesAt result (text_in several (map (λ line. line.now) lines.now) last.now) }
{
    let mut progress = Progress::Start;
    let mut number: u32 = 1;
    for line in lines {
        progress = numbered(number, after(alloc, several, progress, line))?;
        number = number.checked_add(1).ok_or(ObjFault::NoMemory)?;
    }
    numbered(number, finish(progress, last))
}

/// The objects whose text the bytes are; without `several` there is one unit.
fn read(alloc: Global, several: bool, bytes: &[u8]) -> Result<Objects, ObjFault>
    ensures { (lines : List (List ℕ)) (last : List ℕ) → slice_split (λ b. b == 10) bytes.now ≡ lines ++ last ∷ [] →
        GivesAt result (text_in several lines last) }
{
    let parts = cut(alloc, bytes, b'\n')?;
    match parts.split_last() {
        Some((last, lines)) => read_lines(alloc, several, lines, last),
        None => Err(ObjFault::BadObjects(1)),
    }
}

/// The objects whose text the bytes are: object text with one unit.
///
/// Object text is this project's own. Its lines end with LF, words are separated by one blank, and numbers have no leading zero.
pub fn read_objects(alloc: Global, bytes: &[u8]) -> Result<Objects, ObjFault>
    ensures ok { IfOk result (λ objects. IsUnitText bytes.now objects) }
    ensures bad { (line : ℕ) → result ≡ Err (ObjFault.BadObjects line) → IsBadAt line bytes.now }
{
    read(alloc, false, bytes)
}
