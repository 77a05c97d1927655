ghost use Rattle.std.specs.Prelude.{codes};
ghost use Rattle.std.specs.Fmt.{WritesOnOk};
ghost use Rattle.cfg_dnf.specs.ReasonText.{verb, clause_text, between, reason_text};

use ra_cfg::{CfgAtom, write_atoms};
use std::fmt;

// Writes ` is ` for one atom, and ` are ` for more.
fn write_verb<W: fmt::Write>(atoms: &[CfgAtom], f: &mut fmt::Formatter<W>) -> fmt::Result
    ensures { WritesOnOk W.write_str_gives f.old result (verb atoms.now) f.new }
{
    match atoms {
        [] => Ok(()),
        [_] => f.write_str(" is "),
        _ => f.write_str(" are "),
    }
}

// Writes atoms that are enabled, if there are any.
fn write_enabled<W: fmt::Write>(atoms: &[CfgAtom], f: &mut fmt::Formatter<W>) -> fmt::Result
    ensures { WritesOnOk W.write_str_gives f.old result (clause_text (codes "enabled") atoms.now) f.new }
{
    if atoms.is_empty() {
        return Ok(());
    }
    write_atoms(atoms, f)?;
    write_verb(atoms, f)?;
    f.write_str("enabled")
}

// Writes atoms that are disabled, if there are any.
fn write_disabled<W: fmt::Write>(atoms: &[CfgAtom], f: &mut fmt::Formatter<W>) -> fmt::Result
    ensures { WritesOnOk W.write_str_gives f.old result (clause_text (codes "disabled") atoms.now) f.new }
{
    if atoms.is_empty() {
        return Ok(());
    }
    write_atoms(atoms, f)?;
    write_verb(atoms, f)?;
    f.write_str("disabled")
}

// Writes ` and ` where there are atoms of both kinds.
fn write_and<W: fmt::Write>(
    enabled: &[CfgAtom],
    disabled: &[CfgAtom],
    f: &mut fmt::Formatter<W>,
) -> fmt::Result
    ensures { WritesOnOk W.write_str_gives f.old result (between enabled.now disabled.now) f.new }
{
    if enabled.is_empty() || disabled.is_empty() {
        return Ok(());
    }
    f.write_str(" and ")
}

/// Writes which atoms are enabled, and which are disabled, with ` and ` between where there are both.
pub(crate) fn write_reason<W: fmt::Write>(
    enabled: &[CfgAtom],
    disabled: &[CfgAtom],
    f: &mut fmt::Formatter<W>,
) -> fmt::Result
    ensures { WritesOnOk W.write_str_gives f.old result (reason_text enabled.now disabled.now) f.new }
{
    write_enabled(enabled, f)?;
    write_and(enabled, disabled, f)?;
    write_disabled(disabled, f)
}
