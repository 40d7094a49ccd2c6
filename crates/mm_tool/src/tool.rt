ghost use Rattle.std.specs.Prelude.{◌≡◌, ◌≢◌, ◌⊎◌, ℕ, ◌≤◌, List, length, map, IfSome, IfOk, IfErr, OnOk};
ghost use Rattle.std.specs.Io.KnownBytes.{Appends, IsAtEnd, Keeps};
ghost use Rattle.mm_outside.specs.Causes.{Rose};
ghost use Rattle.mm_outside.specs.Whole.{GaveMore, GaveWithin, WritesPrefix};
ghost use Rattle.mm_tool.specs.Report.{IsAnswerStatus, IsSettled, IsStatus, Answers, IsReport, Reports, ReportsPrefix};
ghost use Rattle.mm_tool.specs.Words.{AreWords, IsCommand, IsNoCommand, IsWorded, text_limit};
ghost use Rattle.mm_tool.specs.declared.words.Command.{Command};

use crate::answer::{Answer, Product, answer_to};
use crate::formatting::format;
use crate::linking::answer_link;
use crate::words::{Command, read_words};
use mm_outside::{ReadRefusal, Sink, Source, put_all, read_all};
use mm_terms::NoMemory;
use std::alloc::Global;

/// The greatest text of a program that is read, in bytes.
pub const TEXT_LIMIT: usize = 4_194_304;

/// The greatest text of objects that is read, in bytes.
pub const OBJECTS_LIMIT: usize = 67_108_864;

/// The greatest text that is read for a command, in bytes.
fn limit_of(command: Command) -> usize
    ensures { result ≡ text_limit command }
{
    match command {
        Command::List(_) | Command::Build(_) | Command::Fmt => TEXT_LIMIT,
        Command::Link(_) => OBJECTS_LIMIT,
    }
}

/// Writes an output, and gives its status, or 21 where the sink fails.
fn put<K: Sink>(sink: &mut K, status: u8, output: &[u8]) -> u8
    requires { status ≢ 21 }
    ensures whole { result ≢ 21 → (result ≡ status) × Appends (K.written sink.old) (K.written sink.new) output.now }
    ensures cut { result ≡ 21 → WritesPrefix (K.written sink.old) (K.written sink.new) output.now }
    ensures cause { result ≡ 21 → Rose (K.faults sink.old) (K.faults sink.new) }
    ensures kept { result ≢ 21 → K.faults sink.new ≡ K.faults sink.old }
{
    match put_all(sink, output) {
        Ok(()) => status,
        Err(_) => 21,
    }
}

/// The answer to a command and a text.
#[tactic(auto, using(crate::proofs::CommandLimits::list_short, crate::proofs::CommandLimits::build_short, crate::proofs::Formats::format_statuses))]
fn answer(alloc: Global, command: Command, text: &[u8]) -> Result<Answer, NoMemory>
    requires worded { IsWorded command }
    requires within { length text.now ≤ text_limit command }
    ensures answers { IfOk result (λ answer. Answers command text.now answer.status answer.output.items) }
    ensures statuses { IfOk result (λ answer. IsAnswerStatus answer.status) }
{
    match command {
        Command::List(opts) => answer_to(alloc, Product::Listing, text, &opts),
        Command::Build(opts) => answer_to(alloc, Product::Objects, text, &opts),
        Command::Link(steps) => answer_link(alloc, text, steps),
        Command::Fmt => format(alloc, text),
    }
}

/// The answer to the text that a source has left, or the status of what failed.
fn answer_of<S: Source>(alloc: Global, source: &mut S, command: Command) -> Result<Answer, u8>
    requires { IsWorded command }
    ensures ok { IfOk result (λ answer. IfSome (S.left source.old) (λ text. Answers command text answer.status answer.output.items)) }
    ensures statuses { IfOk result (λ answer. IsAnswerStatus answer.status) }
    ensures end { OnOk result (IsAtEnd (S.left source.new)) }
    ensures failures { IfErr result (λ status. (status ≡ 20) ⊎ (status ≡ 22) ⊎ (status ≡ 23)) }
    ensures fault { result ≡ Err 20 → Rose (S.faults source.old) (S.faults source.new) }
    ensures kept { result ≢ Err 20 → S.faults source.new ≡ S.faults source.old }
    ensures long { result ≡ Err 23 → GaveMore (text_limit command) (S.left source.old) (S.left source.new) }
    ensures short { result ≢ Err 23 → GaveWithin (text_limit command) (S.left source.old) (S.left source.new) }
{
    let text = match read_all(alloc, source, limit_of(command)) {
        Ok(text) => text,
        Err(ReadRefusal::ReadFault) => return Err(20),
        Err(ReadRefusal::TooLong) => return Err(23),
        Err(ReadRefusal::NoMemory) => return Err(22),
    };
    match answer(alloc, command, &text) {
        Ok(answer) => Ok(answer),
        Err(NoMemory) => Err(22),
    }
}

/// Does what the words ask for, with the text that the source has left, and answers the status.
///
/// | status | written | when |
/// |---|---|---|
/// | 0 | the listing, or the text of the objects | the text means a program within both limits |
/// | 0 | the canonical text | the text means a program, and its canonical form is asked for |
/// | 0 | the numbers that are printed, and `returned` | the objects are linked, and their run returns |
/// | 2 | `error: bad words` | the words are no command line; nothing is read |
/// | 3 | `error: bad text` | the text means no program, and its items or objects are asked for |
/// | 3 | `error: bad text at <line>:<column>: <rule>` | the text is none of the language, and its canonical form is asked for |
/// | 4 | `error: bad crate at line <line>: <rule>` | else it breaks a rule of loading, and no form of it is not built |
/// | 5 | `error: more than <N> items in crate <name>` | the program has more items than the limit |
/// | 6 | `error: type length <n> in <path>` | else an item of the program calls an instance that is longer than the limit |
/// | 8 | `error: bad objects` | the bytes are no text of objects |
/// | 9 | `error: symbol <s> defined twice, in <unit> and <unit>` | two definitions of a symbol clash |
/// | 9 | `error: undefined symbol <s> in unit <unit>` | else a reference names nothing |
/// | 9 | `error: no main` | else no definition of the main symbol is open to every unit |
/// | 10 | the numbers that are printed, and `trap <kind>` | the objects are linked, and their run traps |
/// | 11 | the numbers that are printed, and `still running` | the objects are linked, and their run has not ended after so many steps |
/// | 12 | `error: form not built` | else the text has a form that is not built yet, and its canonical form is asked for |
/// | 20 | nothing | the source failed |
/// | 21 | a prefix of the output | the sink failed |
/// | 22 | nothing | out of memory |
/// | 23 | nothing | the text has more than [`TEXT_LIMIT`] bytes, or where it is linked, more than [`OBJECTS_LIMIT`] |
#[tactic(auto, using(crate::proofs::CommandLimits::worded))]
pub fn tool_one<S: Source, K: Sink>(
    alloc: Global,
    words: &[&str],
    source: &mut S,
    sink: &mut K,
) -> u8
    // Where the source tells its bytes, status and output are those of the report, or a prefix of the output where the sink fails.
    ensures report { IfSome (S.left source.old) (λ text. IsSettled result → Reports (map (λ w. w.now) words.now) text result (K.written sink.old) (K.written sink.new)) }
    ensures cut { IfSome (S.left source.old) (λ text. result ≡ 21 → ReportsPrefix (map (λ w. w.now) words.now) text (K.written sink.old) (K.written sink.new)) }
    ensures silent { (result ≡ 20) ⊎ (result ≡ 22) ⊎ (result ≡ 23) → Keeps (K.written sink.old) (K.written sink.new) }

    // When each other answer comes.
    ensures statuses { IsStatus result }
    ensures bad_words { result ≡ 2 → IsNoCommand (map (λ w. w.now) words.now) }
    ensures refused { IsNoCommand (map (λ w. w.now) words.now) → (result ≡ 2) ⊎ (result ≡ 21) }
    ensures read { result ≡ 20 → Rose (S.faults source.old) (S.faults source.new) }
    ensures write { result ≡ 21 → Rose (K.faults sink.old) (K.faults sink.new) }
    ensures read_kept { result ≢ 20 → S.faults source.new ≡ S.faults source.old }
    ensures write_kept { result ≢ 21 → K.faults sink.new ≡ K.faults sink.old }
    ensures long { (command : Command) → AreWords (map (λ w. w.now) words.now) command → result ≡ 23 → GaveMore (text_limit command) (S.left source.old) (S.left source.new) }
    ensures short { (command : Command) → AreWords (map (λ w. w.now) words.now) command → result ≢ 23 → GaveWithin (text_limit command) (S.left source.old) (S.left source.new) }

    // What was read: all of the text, or nothing where the words are bad.
    ensures ended { IsCommand (map (λ w. w.now) words.now) → (result ≢ 20) × (result ≢ 22) × (result ≢ 23) → IsAtEnd (S.left source.new) }
    ensures unread { IsNoCommand (map (λ w. w.now) words.now) → source.new ≡ source.old }
{
    let Some(command) = read_words(words) else {
        return put(sink, 2, b"error: bad words\n");
    };
    match answer_of(alloc, source, command) {
        Ok(answer) => put(sink, answer.status, &answer.output),
        Err(status) => status,
    }
}

/// A command line and a text have one report: one status and one output.
pub fn one_report()
    ensures { (words : List (List ℕ)) (text : List ℕ) (status other : ℕ) (output others : List ℕ) → IsReport words text status output → IsReport words text other others → (status ≡ other) × (output ≡ others) }
{}
