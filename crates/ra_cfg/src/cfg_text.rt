ghost use Rattle.std.specs.Prelude.{Some, map, chars};
ghost use Rattle.std.specs.List.{flat_map};
ghost use Rattle.std.specs.Fmt.{WritesOnOk};
ghost use Rattle.ra_cfg.specs.Text.{escaped, quoted, atom_text, joined, expr_text, after_comma, more_atoms, atoms_text, disabled_text, diff_text};

use crate::cfg_expr::{CfgAtom, CfgExpr};
use std::fmt;
use std::fmt::{Display, Write};

// Writes a character as it stands between quotes.
#[tactic(auto, unfolding(crate::specs::Text::escaped))]
fn write_escaped<W: fmt::Write>(c: char, f: &mut fmt::Formatter<W>) -> fmt::Result
    ensures { WritesOnOk W.write_str_gives f.old result (escaped c) f.new }
{
    match c {
        '"' => f.write_str("\\\""),
        '\\' => f.write_str("\\\\"),
        '\n' => f.write_str("\\n"),
        '\r' => f.write_str("\\r"),
        '\t' => f.write_str("\\t"),
        '\0' => f.write_str("\\0"),
        '\u{1}'..='\u{1f}' | '\u{7f}' => {
            let code = u32::from(c);
            write!(f, "\\u{{{code:x}}}")
        }
        _ => f.write_char(c),
    }
}

// Writes characters as they stand between quotes.
fn write_inside<W: fmt::Write>(text: &str, f: &mut fmt::Formatter<W>) -> fmt::Result
    ensures { WritesOnOk W.write_str_gives f.old result (flat_map escaped (chars text.now)) f.new }
{
    for c in text.chars() {
        write_escaped(c, f)?;
    }
    Ok(())
}

// Writes a text between quotes.
fn write_quoted<W: fmt::Write>(text: &str, f: &mut fmt::Formatter<W>) -> fmt::Result
    ensures { WritesOnOk W.write_str_gives f.old result (quoted text.now) f.new }
{
    f.write_str("\"")?;
    write_inside(text, f)?;
    f.write_str("\"")
}

impl fmt::Display for CfgAtom {
    ghost output = { λ atom. Some (atom_text atom) };

    fn fmt<W: fmt::Write>(&self, f: &mut fmt::Formatter<W>) -> fmt::Result {
        match self {
            CfgAtom::Flag(name) => name.fmt(f),
            CfgAtom::KeyValue { key, value } => {
                write!(f, "{key} = ")?;
                write_quoted(value.as_str(), f)
            }
        }
    }
}

impl fmt::Display for CfgExpr {
    ghost output = { λ expr. Some (expr_text expr) };

    #[cycle(printing)]
    fn fmt<W: fmt::Write>(&self, f: &mut fmt::Formatter<W>) -> fmt::Result {
        match self {
            CfgExpr::Invalid => f.write_str("invalid"),
            CfgExpr::Atom(atom) => atom.fmt(f),
            CfgExpr::All(parts) => {
                f.write_str("all(")?;
                write_parts(parts.as_slice(), f)?;
                f.write_str(")")
            }
            CfgExpr::Any(parts) => {
                f.write_str("any(")?;
                write_parts(parts.as_slice(), f)?;
                f.write_str(")")
            }
            CfgExpr::Not(part) => {
                f.write_str("not(")?;
                part.get().fmt(f)?;
                f.write_str(")")
            }
            CfgExpr::Version(text) => {
                f.write_str("version(")?;
                write_quoted(text.as_str(), f)?;
                f.write_str(")")
            }
        }
    }
}

// Writes predicates with `, ` between.
#[cycle(printing)]
fn write_parts<W: fmt::Write>(parts: &[CfgExpr], f: &mut fmt::Formatter<W>) -> fmt::Result
    ensures { WritesOnOk W.write_str_gives f.old result (joined (map expr_text parts.now)) f.new }
{
    let Some((first, rest)) = parts.split_first() else {
        return Ok(());
    };
    first.fmt(f)?;
    for part in rest {
        f.write_str(", ")?;
        part.fmt(f)?;
    }
    Ok(())
}

// Writes atoms, each behind `, `.
fn write_between<W: fmt::Write>(atoms: &[CfgAtom], f: &mut fmt::Formatter<W>) -> fmt::Result
    ensures { WritesOnOk W.write_str_gives f.old result (flat_map after_comma (map atom_text atoms.now)) f.new }
{
    for atom in atoms {
        write!(f, ", {atom}")?;
    }
    Ok(())
}

// Writes atoms behind a first one: the last behind ` and `, each of the others behind `, `.
fn write_more<W: fmt::Write>(atoms: &[CfgAtom], f: &mut fmt::Formatter<W>) -> fmt::Result
    ensures { WritesOnOk W.write_str_gives f.old result (more_atoms atoms.now) f.new }
{
    let Some((last, between)) = atoms.split_last() else {
        return Ok(());
    };
    write_between(between, f)?;
    write!(f, " and {last}")
}

/// Writes atoms, with `, ` between and ` and ` in front of the last: `a, b and c`; nothing where there are none.
pub fn write_atoms<W: fmt::Write>(atoms: &[CfgAtom], f: &mut fmt::Formatter<W>) -> fmt::Result
    ensures { WritesOnOk W.write_str_gives f.old result (atoms_text atoms.now) f.new }
{
    let Some((first, rest)) = atoms.split_first() else {
        return Ok(());
    };
    first.fmt(f)?;
    write_more(rest, f)
}

// Writes `disable` and atoms, if there are any.
fn write_disabled<W: fmt::Write>(atoms: &[CfgAtom], f: &mut fmt::Formatter<W>) -> fmt::Result
    ensures { WritesOnOk W.write_str_gives f.old result (disabled_text atoms.now) f.new }
{
    if atoms.is_empty() {
        return Ok(());
    }
    f.write_str("disable ")?;
    write_atoms(atoms, f)
}

/// Writes `enable` and the first atoms, and `disable` and the others, with `; ` between where there are both.
pub(crate) fn write_diff<W: fmt::Write>(
    enable: &[CfgAtom],
    disable: &[CfgAtom],
    f: &mut fmt::Formatter<W>,
) -> fmt::Result
    ensures { WritesOnOk W.write_str_gives f.old result (diff_text enable.now disable.now) f.new }
{
    if enable.is_empty() {
        return write_disabled(disable, f);
    }
    f.write_str("enable ")?;
    write_atoms(enable, f)?;
    if !disable.is_empty() {
        f.write_str("; ")?;
    }
    write_disabled(disable, f)
}
