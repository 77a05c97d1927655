ghost use Rattle.std.specs.Prelude.{◌≡◌, ◌+◌, ◌≤◌, ◌++◌, [], ◌∷◌, if◌then◌else◌, IfOk, OnOk, OnErr, length, vec_len, take, count_by, nat_eq, chars, suc};
ghost use Rattle.script_grammar.specs.Limits.{max_limit};
ghost use Rattle.script.specs.Script.{contents, IsScript, Says, with_end};
ghost use Rattle.script.specs.ReadLines.{StopsBehind, IsValidFront};
ghost use Rattle.script.specs.Fault.{FaultIs, BreakIs};

use crate::reading::Reading;
use gated_calls::GatedCall;
use hir_expander::MacroTable;
use hir_store::LangItems;
use ra_cfg::CfgOptions;
use script_grammar::read_item;
use script_tokens::blank_line;
use std::alloc::{AllocError, Global};
use std::str;
use text_cut::begin;
use thiserror::Error;

/// The greatest length of a script, in bytes.
pub const MAX_SCRIPT_LEN: usize = 16_777_216;

/// A script that was read. Options, macros, limit and language items are those of the whole script, wherever they stand in it.
#[derive(Drop)]
pub struct Script {
    /// The options that are set, and the answers for versions.
    pub options: CfgOptions,
    /// The macros, each with what its last definition says.
    pub macros: MacroTable,
    /// The recursion limit, at most 1,024: the last that is set, or 128.
    pub limit: u32,
    /// The language items that the script does not take away.
    pub items: LangItems,
    /// The calls of the script, in order, each with its predicates.
    pub calls: Vec<GatedCall>,
}

/// Why a script was not read.
#[derive(Debug, Drop, Error)]
pub enum ScriptError {
    /// The text is no script.
    #[error("line {line} is no item")]
    Syntax {
        /// The line in which the first broken item begins, counted from 1.
        line: u64,
    },
    /// No memory is left.
    #[error("{0}")]
    Memory(AllocError),
}

impl From<AllocError> for ScriptError {
    ghost use Rattle.std.specs.Prelude.{◌≡◌};
    ghost use Rattle.script.specs.declared.script.ScriptError.TheVariants.{Memory};

    ghost from_gives = { λ error refused. refused ≡ Memory error };

    fn from(error: AllocError) -> ScriptError {
        ScriptError::Memory(error)
    }
}

// The longest front of the bytes that is UTF-8.
fn valid_front(bytes: &[u8]) -> &str
    ensures { IsValidFront bytes.now result.now }
{
    match str::from_utf8(bytes) {
        Ok(text) => text,
        Err(error) => match str::from_utf8(&bytes[..error.valid_up_to()]) {
            Ok(text) => text,
            Err(_) => unreachable!(),
        },
    }
}

// Reads the lines at the front of a text: what they say, and how many bytes they take.
fn read_lines(alloc: Global, text: &str) -> Result<(Reading, u32), AllocError>
    requires { length text.now ≤ 16_777_217 }
    ensures { IfOk result (λ r. StopsBehind (chars text.now) r.0 r.1) }
{
    let mut reading = Reading::new(alloc)?;
    let mut here = begin(text);
    loop {
        if let Some(behind) = blank_line(here) {
            here = behind;
            continue;
        }
        let Some((item, behind)) = read_item(alloc, here, reading.next_ptr())? else {
            return Ok((reading, here.at));
        };
        reading.add(alloc, item)?;
        here = behind;
    }
}

// The line of the byte behind these bytes, counted from 1.
fn line_behind(bytes: &[u8]) -> u64
    requires { length bytes.now ≤ 16_777_217 }
    ensures { result ≡ suc (count_by (λ b. nat_eq b 10) bytes.now) }
{
    bytes.iter().filter(|b| **b == b'\n').count() as u64 + 1
}

/// Reads a script whose last line ends in a line feed. Where it does not, the last line is no item:
///
/// ```
/// let mut bytes = Vec::from_slice(alloc, b"format \"a\"")?;
/// assert!(rt; matches!(read_ended(alloc, &bytes), Err(ScriptError::Syntax { line: 1 })));
/// end_last_line(&mut bytes)?;
/// assert_eq!(rt; read_ended(alloc, &bytes)?.calls.len(), 1);
/// ```
///
/// # Errors
///
/// [`ScriptError::Syntax`] with the line of the first broken item, exactly where the bytes are no list of items;
/// [`ScriptError::Memory`] where no memory is left.
pub fn read_ended(alloc: Global, bytes: &[u8]) -> Result<Script, ScriptError>
    requires { length bytes.now ≤ MAX_SCRIPT_LEN + 1 }
    ensures script { IfOk result (λ script. Says bytes.now (contents script)) }
    ensures limit { IfOk result (λ script. script.limit ≤ max_limit) }
    ensures fault { BreakIs result bytes.now }
{
    let (reading, at) = read_lines(alloc, valid_front(bytes))?;
    if (at as usize) < bytes.len() {
        return Err(ScriptError::Syntax {
            line: line_behind(&bytes[..at as usize]),
        });
    }
    let Reading {
        options,
        macros,
        limit,
        items,
        waiting: _,
        calls,
    } = reading;
    Ok(Script {
        options,
        macros,
        limit: limit.get(),
        items,
        calls,
    })
}

// Whether bytes end in another byte than a line feed.
fn lacks_end(bytes: &[u8]) -> bool
    ensures { with_end bytes.now ≡ (if result then bytes.now ++ 10 ∷ [] else bytes.now) }
{
    match bytes.last() {
        Some(last) => *last != b'\n',
        None => false,
    }
}

/// Adds a line feed behind bytes that do not end in one; no bytes stay none. For an example see [`read_ended`].
///
/// # Errors
///
/// Where no memory is left, the bytes stay as they were.
pub fn end_last_line(bytes: &mut Vec<u8>) -> Result<(), AllocError>
    ensures ended { OnOk result (bytes.new.items ≡ with_end bytes.old.items) }
    ensures len { OnOk result (vec_len bytes.new ≤ vec_len bytes.old + 1) }
    ensures kept { OnErr result (bytes.new.items ≡ bytes.old.items) }
{
    if !lacks_end(bytes) {
        return Ok(());
    }
    bytes.push(b'\n')?;
    Ok(())
}

/// Reads a script of at most [`MAX_SCRIPT_LEN`] bytes, whose last line may lack its line feed.
///
/// ```
/// let script = read_script(alloc, b"opt a\ncfg a\nformat \"hi\"")?;
/// assert_eq!(rt; script.calls.len(), 1);
/// assert!(rt; matches!(read_script(alloc, b"opt a\n?"), Err(ScriptError::Syntax { line: 2 })));
/// ```
///
/// # Errors
///
/// [`ScriptError::Syntax`] with the line of the first broken item, exactly where the bytes are no script;
/// [`ScriptError::Memory`] where no memory is left.
pub fn read_script(alloc: Global, bytes: &[u8]) -> Result<Script, ScriptError>
    requires { length bytes.now ≤ MAX_SCRIPT_LEN }
    ensures script { IfOk result (λ script. IsScript bytes.now (contents script)) }
    ensures limit { IfOk result (λ script. script.limit ≤ max_limit) }
    ensures fault { FaultIs result bytes.now }
{
    let mut ended = bytes.to_vec(alloc)?;
    end_last_line(&mut ended)?;
    read_ended(alloc, &ended)
}
