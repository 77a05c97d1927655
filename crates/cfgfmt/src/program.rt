ghost use Rattle.std.specs.Prelude.{◌≡◌, ◌≢◌, ◌≤◌, ◌⊎◌, ◌+◌, Some, None, vec_len, IfOk, IfErr, OnOk, OnErr, IsTrue};
ghost use Rattle.causes.specs.Causes.{Rose};
ghost use Rattle.streams.specs.Streams.{StaysKnown};
ghost use Rattle.streams.specs.ReadWrite.{ReadsAll, TakesCount, TakesAtMost};
ghost use Rattle.hir_lower.specs.Lowered.{AreOutcomes, AreRising, AreInStore};
ghost use Rattle.hir_store.specs.Store.{NoDanglingIds};
ghost use Rattle.script.specs.Script.{contents, IsScript};
ghost use Rattle.script_grammar.specs.Limits.{max_limit};
ghost use Rattle.cfgfmt.specs.declared.command.Command.TheVariants.{Run};
ghost use Rattle.cfgfmt.specs.declared.refusal.Refusal.{Refusal};
ghost use Rattle.cfgfmt.specs.Command.{command_of, Asks};
ghost use Rattle.cfgfmt.specs.Session.{IsNew, LowersAll, Gets, output_of, script_around};
ghost use Rattle.cfgfmt.specs.Refusal.{HasInput, IsFaulty, OutgrowsArena, AreMany, IsJustified, IsInputRefusal, IsScriptRefusal, IsLowerRefusal, refusal_of};
ghost use Rattle.cfgfmt.specs.Run.{Prints, Makes, Refuses, TellsWhole, WritesPart, IsSent, IsTold, IsSmall, IsGood, is_status, is_good_status};

use crate::command::Command;
use crate::printing::{print_outcomes, print_summary};
use crate::refusal::Refusal;
use crate::session::{Session, script_collector};
use hir_lower::LowerError;
use script::{MAX_SCRIPT_LEN, Script, ScriptError, end_last_line, read_ended};
use script_generator::script_of;
use std::alloc::Global;
use streams::{ReadRefused, Sink, Source, read_whole, write_whole};
use sym_core::Symbol;

// Gets the bytes of the script that a command asks for.
fn input<S: Source>(alloc: Global, command: Command, source: &mut S) -> Result<Vec<u8>, Refusal>
    ensures came { IfOk result (λ bytes. Gets command (S.state source.old) (S.state source.new) bytes.items) }
    ensures fits { IfOk result (λ bytes. vec_len bytes ≤ MAX_SCRIPT_LEN) }
    ensures refused { IfErr result (IsInputRefusal command (S.state source.old) (S.state source.new)) }
    ensures unread { command ≢ Run → source.new ≡ source.old }
    ensures taken { TakesAtMost (S.state source.old) (S.state source.new) (MAX_SCRIPT_LEN + 1) }
    ensures known { StaysKnown (S.state source.old).left (S.state source.new).left }
{
    match command {
        Command::Run => read_input(alloc, source),
        Command::Generate(n) => match script_of(alloc, n) {
            Ok(bytes) => Ok(bytes),
            Err(_) => Err(Refusal::Memory),
        },
    }
}

// Reads a source to its end.
fn read_input<S: Source>(alloc: Global, source: &mut S) -> Result<Vec<u8>, Refusal>
    ensures all { IfOk result (λ bytes. ReadsAll (S.state source.old) (S.state source.new) bytes.items) }
    ensures fits { IfOk result (λ bytes. vec_len bytes ≤ MAX_SCRIPT_LEN) }
    ensures refused { IfErr result (IsInputRefusal Run (S.state source.old) (S.state source.new)) }
    ensures taken { TakesAtMost (S.state source.old) (S.state source.new) (MAX_SCRIPT_LEN + 1) }
    ensures known { StaysKnown (S.state source.old).left (S.state source.new).left }
{
    match read_whole(alloc, source, MAX_SCRIPT_LEN) {
        Ok(bytes) => Ok(bytes),
        Err(ReadRefused::Failed) => Err(Refusal::Read),
        Err(ReadRefused::TooLong) => Err(Refusal::TooLong),
        Err(ReadRefused::Memory(_)) => Err(Refusal::Memory),
    }
}

// Reads the script that bytes are.
fn read_bytes(alloc: Global, mut bytes: Vec<u8>) -> Result<Script, Refusal>
    requires { vec_len bytes ≤ MAX_SCRIPT_LEN }
    ensures script { IfOk result (λ script. IsScript bytes.items (contents script)) }
    ensures limit { IfOk result (λ script. script.limit ≤ max_limit) }
    ensures refused { IfErr result (IsScriptRefusal bytes.items) }
{
    match end_last_line(&mut bytes) {
        Ok(()) => {}
        Err(_) => return Err(Refusal::Memory),
    }
    match read_ended(alloc, &bytes) {
        Ok(script) => Ok(script),
        Err(error) => Err(refusal_of(error)),
    }
}

// A script that was not read, as a refusal.
fn refusal_of(error: ScriptError) -> Refusal
    ensures { result ≡ refusal_of error }
{
    match error {
        ScriptError::Syntax { line } => Refusal::Syntax { line },
        ScriptError::Memory(_) => Refusal::Memory,
    }
}

// Lowers the calls of a script into a session of its own.
fn lower(alloc: Global, script: Script) -> Result<Session, Refusal>
    requires { script.limit ≤ max_limit }
    ensures options { IfOk result (λ session. session.options ≡ script.options) }
    ensures outcomes { IfOk result (λ session. AreOutcomes script.options (script_around (contents script)) session.collector.store script.calls.items session.outcomes.items) }
    ensures within { IfOk result (λ session. AreInStore session.collector.store session.outcomes.items) }
    ensures rising { IfOk result (λ session. AreRising 0 session.outcomes.items) }
    ensures lowered { IfOk result (λ session. LowersAll (contents script) session.outcomes.items session.collector) }
    ensures refused { IfErr result (IsLowerRefusal (AreMany (contents script))) }
{
    let Script {
        options,
        macros,
        limit,
        items,
        calls,
    } = script;
    let mut collector = script_collector(alloc, &macros, limit, items);
    let outcomes = match collector.collect_gated(alloc, &calls, &options, &macros) {
        Ok(outcomes) => outcomes,
        Err(LowerError::Memory(_)) => return Err(Refusal::Memory),
        Err(LowerError::ArenaFull) => return Err(Refusal::ArenaFull),
    };
    Ok(Session {
        collector,
        options,
        outcomes,
    })
}

// Prints what a command asks for of a session.
fn print(alloc: Global, command: Command, session: &Session) -> Result<Vec<u8>, Refusal>
    requires { AreInStore session.now.collector.store session.now.outcomes.items }
    ensures printed { IfOk result (λ output. output.items ≡ output_of command session.now) }
    ensures no_dangling { NoDanglingIds session.now.collector.store }
    ensures refused { IfErr result (λ refusal. refusal ≡ Refusal.Memory) }
{
    let printed = match command {
        Command::Run => print_outcomes(alloc, session),
        Command::Generate(_) => print_summary(alloc, session),
    };
    match printed {
        Ok(output) => Ok(output),
        Err(_) => Err(Refusal::Memory),
    }
}

// What is to be printed, and the session that it stands for. A refusal leaves the session as it was.
fn answer<S: Source>(
    alloc: Global,
    words: &[Symbol],
    source: &mut S,
    session: &mut Session,
) -> Result<Vec<u8>, Refusal>
    ensures made { IfOk result (λ output. Asks words.now (Makes (S.state source.old) (S.state source.new) session.new output.items)) }
    ensures refused { IfErr result (IsJustified words.now (S.state source.old) (S.state source.new)) }
    ensures kept { OnErr result (session.new ≡ session.old) }
    ensures unread { command_of words.now ≢ Some Run → source.new ≡ source.old }
    ensures taken { TakesAtMost (S.state source.old) (S.state source.new) (MAX_SCRIPT_LEN + 1) }
    ensures known { StaysKnown (S.state source.old).left (S.state source.new).left }
{
    let Some(command) = Command::of_words(words) else {
        return Err(Refusal::Usage);
    };
    let bytes = input(alloc, command, source)?;
    let script = read_bytes(alloc, bytes)?;
    let made = lower(alloc, script)?;
    let output = print(alloc, command, &made)?;
    *session = made;
    Ok(output)
}

// Writes bytes and ends with a status, or with 5 where writing fails.
fn send<K: Sink>(sink: &mut K, bytes: &[u8], status: u8) -> u8
    ensures sent { IsSent status result (K.state sink.old) (K.state sink.new) bytes.now }
    ensures known { StaysKnown (K.state sink.old).written (K.state sink.new).written }
{
    match write_whole(sink, bytes) {
        Ok(()) => status,
        Err(_) => 5,
    }
}

// Writes the line of a broken item, or that of want of memory where there is none for the line.
fn tell_line<K: Sink>(alloc: Global, sink: &mut K, line: u64) -> u8
    ensures told { IsTold (Refusal.Syntax line) result (K.state sink.old) (K.state sink.new) }
    ensures known { StaysKnown (K.state sink.old).written (K.state sink.new).written }
{
    match format!(in alloc; "error syntax at line {line}\n") {
        Ok(text) => send(sink, text.as_bytes(), 3),
        Err(_) => send(sink, b"error memory\n", 6),
    }
}

// Writes the line of a refusal.
fn tell<K: Sink>(alloc: Global, sink: &mut K, refusal: Refusal) -> u8
    ensures told { IsTold refusal result (K.state sink.old) (K.state sink.new) }
    ensures known { StaysKnown (K.state sink.old).written (K.state sink.new).written }
{
    match refusal {
        Refusal::Usage => send(sink, b"error usage\n", 2),
        Refusal::Syntax { line } => tell_line(alloc, sink, line),
        Refusal::Read => send(sink, b"error read\n", 4),
        Refusal::Memory => send(sink, b"error memory\n", 6),
        Refusal::ArenaFull => send(sink, b"error arena full\n", 8),
        Refusal::TooLong => send(sink, b"error too long\n", 9),
    }
}

/// Runs the program as its words ask, and answers the status with which it is to end. The words are the program's
/// arguments without its name:
///
/// - none, or the one word `run`: reads a script from the source, lowers its calls into the session, and writes what becomes
///   of them to the sink, a line for each;
/// - `gen` and a number of 1 to 10 digits, of at most 4,294,967,295: reads nothing, does the same with the script that
///   [`script_of`] makes for the number, and writes a summary in place of the outcomes, as [`print_summary`] does.
///
/// The whole output is made before the first byte of it is written.
///
/// ```
/// let mut source = MemSource::new(b"format \"hi\"".to_vec(alloc)?, 4096, Vec::new(alloc));
/// let mut sink = MemSink::new(alloc, 1_000, 1_000, Vec::new(alloc))?;
/// let mut session = Session::new(alloc)?;
/// assert_eq!(run(alloc, &[], &mut source, &mut sink, &mut session), 0);
/// assert_eq!(sink.bytes(), b"0 code Arguments::from_str(s\"6869\")\n".as_slice());
/// ```
///
/// # Errors
///
/// A status other than 0 comes with a line of its own in place of the output: 2 for other words, 3 where the bytes are no
/// script, 4 where the source fails, 6 where no memory is left, 8 where an arena of the store is full, 9 where more than
/// 16,777,216 bytes come. It is 5 where the sink fails. Where several hold, the order is words, reading, length, syntax,
/// lowering, writing. With `gen` and a number it is 0, 5 or 6.
pub fn run<S: Source, K: Sink>(
    alloc: Global,
    words: &[Symbol],
    source: &mut S,
    sink: &mut K,
    session: &mut Session,
) -> u8
    requires { IsNew session.old }

    // The headline.
    ensures prints { result ≡ 0 → Asks words.now (Prints (S.state source.old) (S.state source.new) (K.state sink.old) (K.state sink.new) session.new) }

    // Every other answer is a refusal that has its cause, told by its line, or a part of the output or of such a line.
    ensures refuses { result ≢ 0 → result ≢ 5 → Refuses words.now (S.state source.old) (S.state source.new) session.new (TellsWhole result (K.state sink.old) (K.state sink.new)) }
    ensures part { result ≡ 5 → WritesPart words.now (S.state source.old) (S.state source.new) (K.state sink.old) (K.state sink.new) session.new }
    ensures statuses { IsTrue (is_status result) }

    // What this says of each status.
    ensures usage { result ≡ 2 → command_of words.now ≡ None }
    ensures syntax { result ≡ 3 → Asks words.now (λ command. (line : _) × HasInput command (S.state source.old) (S.state source.new) (λ bytes. IsFaulty bytes line)) }
    ensures read { result ≡ 4 → (command_of words.now ≡ Some Run) × Rose (S.state source.old).faults (S.state source.new).faults }
    ensures write { result ≡ 5 → Rose (K.state sink.old).faults (K.state sink.new).faults }
    ensures room { result ≡ 5 → (room : _) → (K.state sink.old).room ≡ Some room → IsSmall words.now session.new room }
    ensures full { result ≡ 8 → Asks words.now (λ command. HasInput command (S.state source.old) (S.state source.new) OutgrowsArena) }
    ensures too_long { result ≡ 9 → (command_of words.now ≡ Some Run) × TakesCount (S.state source.old) (S.state source.new) (MAX_SCRIPT_LEN + 1) }

    // Where the input is a script whose calls fit into a store, only the outside and want of memory are in the way. A script that
    // is made always is one, and the source is not asked for it.
    ensures complete { (good : IsGood words.now (S.state source.old)) → IsTrue (is_good_status good.command result) }

    // Wrong words are never answered otherwise. Only words that ask for it have the source read. No fault is passed over.
    ensures words { command_of words.now ≡ None → (result ≡ 2) ⊎ (result ≡ 5) }
    ensures unread { command_of words.now ≢ Some Run → source.new ≡ source.old }
    ensures source_calm { result ≢ 4 → result ≢ 5 → (S.state source.new).faults ≡ (S.state source.old).faults }
    ensures sink_calm { result ≢ 5 → (K.state sink.new).faults ≡ (K.state sink.old).faults }

    // What is taken from the source, whatever the status.
    ensures taken { TakesAtMost (S.state source.old) (S.state source.new) (MAX_SCRIPT_LEN + 1) }
    ensures source_known { StaysKnown (S.state source.old).left (S.state source.new).left }
    ensures sink_known { StaysKnown (K.state sink.old).written (K.state sink.new).written }
{
    match answer(alloc, words, source, session) {
        Ok(output) => send(sink, &output, 0),
        Err(refusal) => tell(alloc, sink, refusal),
    }
}
