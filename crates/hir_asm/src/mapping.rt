ghost use Rattle.std.specs.Prelude.{◌≡◌, ◌+◌, ◌≤◌, false, [], ◌∷◌, ◌++◌, length, map, IfOk, OnOk, Option, Some, None, option_copied};
ghost use Rattle.hir_expander.specs.Machine.{is_macro};
ghost use Rattle.hir_expander.specs.Reached.{literal_of};
ghost use Rattle.std.specs.List.{All};
ghost use Rattle.fmt_parse.specs.Ranges.{RangesWithin};
ghost use Rattle.fmt_parse.specs.declared.piece.Piece.TheVariants.{NextArgument};
ghost use Rattle.hir_store.specs.Unfolding.{shape_of};
ghost use Rattle.std.specs.Option.{option_or};
ghost use Rattle.std.specs.HashMap.{get};
ghost use Rattle.hir_fmt.specs.Firsts.{same_name};
ghost use Rattle.hir_asm.specs.Mapping.{place_if, has_register, by_number, denoted, puts, places_in, IsLiteralRow, AreMapped};
ghost use Rattle.hir_asm.specs.Text.{source_of, HasSpans, IsPositionOf};
ghost use Rattle.hir_asm.specs.Heads.{heads_of, HasLast, filled};
ghost use Rattle.hir_asm.specs.Rows.{AddsRow};

use crate::template::TemplateText;
use fmt_parse::{Argument, Piece, Position, parse_asm};
use hir_expander::{Expander, Macros};
use hir_store::{AsmOperand, AsmRow, InlineAsmRegOrRegClass};
use sqlite_items::Items;
use std::alloc::{AllocError, Global};
use std::collections::HashMap;
use sym_core::{Name, TextRange};
use syn_trees::{StringLit, Template};

/// The operands of a call, as its templates denote them.
#[derive(Drop)]
pub(crate) struct Operands<'a> {
    /// The operands, with their names.
    list: &'a [(Option<Name>, AsmOperand)],
    /// The places of those that bear a name: of those that share one, the last.
    places: HashMap<Name, usize>,
}

// The rows of some templates, and the counter behind them.
#[derive(Drop)]
struct Rows {
    rows: Items<AsmRow>,
    counter: usize,
}

// Whether an operand is in a register that is named itself, and not by its class.
fn has_register(operand: &AsmOperand) -> bool
    ensures { result ≡ has_register (shape_of operand.now) }
{
    match operand {
        AsmOperand::In { reg, .. }
        | AsmOperand::Out { reg, .. }
        | AsmOperand::InOut { reg, .. }
        | AsmOperand::SplitInOut { reg, .. } => matches!(reg, InlineAsmRegOrRegClass::Reg(_)),
        AsmOperand::Label(_) | AsmOperand::Const(_) | AsmOperand::Sym(_) => false,
    }
}

impl<'a> Operands<'a> {
    /// Looks for the names of operands.
    pub(crate) fn new(
        alloc: Global,
        list: &'a [(Option<Name>, AsmOperand)],
    ) -> Result<Operands<'a>, AllocError>
        ensures list { IfOk result (λ operands. operands.list.now ≡ list.now) }
        ensures places { IfOk result HasLast }
    {
        let mut places = HashMap::new(alloc);
        for (place, (name, _)) in list.iter().enumerate() {
            enter(&mut places, name.as_ref(), place)?;
        }
        Ok(Operands { list, places })
    }

    // The operand that a number denotes, if it denotes one.
    fn by_number(&self, number: usize) -> Option<usize>
        ensures { result ≡ by_number (heads_of self.now.list.now) number }
    {
        let (name, operand) = self.list.get(number)?;
        if name.is_some() || has_register(operand) {
            return None;
        }
        Some(number)
    }

    // The operand that a placeholder of a text denotes, if it denotes one.
    fn denoted(
        &self,
        alloc: Global,
        text: &TemplateText,
        position: Position,
    ) -> Result<Option<usize>, AllocError>
        requires within { IsPositionOf text.now position }
        requires places { HasLast self.now }
        ensures { IfOk result (λ place. place ≡ denoted (heads_of self.now.list.now) (source_of text.now) position) }
    {
        match position {
            Position::ImplicitlyIs(number) | Position::Is(number) => Ok(self.by_number(number)),
            Position::Named(range) => {
                let name = text.name(alloc, range)?;
                Ok(self.places.get(&name).copied())
            }
        }
    }

    // Enters the operand that a placeholder denotes, where it denotes one and has a span.
    fn put(
        &self,
        alloc: Global,
        text: &TemplateText,
        argument: &Argument,
        places: &mut Items<(TextRange, usize)>,
    ) -> Result<(), AllocError>
        requires within { RangesWithin text.now.text (NextArgument argument.now) }
        requires short { HasSpans text.now }
        requires places { HasLast self.now }
        ensures { OnOk result (places.new ≡ places.old ++ puts (heads_of self.now.list.now) (source_of text.now) argument.now) }
    {
        let denoted = self.denoted(alloc, text, argument.position)?;
        if let (Some(span), Some(place)) = (text.span(argument.position_span), denoted) {
            places.push((span, place))?;
        }
        Ok(())
    }

    // Enters what a piece puts.
    fn put_piece(
        &self,
        alloc: Global,
        text: &TemplateText,
        piece: &Piece,
        places: &mut Items<(TextRange, usize)>,
    ) -> Result<(), AllocError>
        requires within { RangesWithin text.now.text piece.now }
        requires short { HasSpans text.now }
        requires places { HasLast self.now }
        ensures { OnOk result (places.new ≡ places.old ++ places_in (heads_of self.now.list.now) (source_of text.now) (piece.now ∷ [])) }
    {
        match piece {
            Piece::Lit(_) => Ok(()),
            Piece::NextArgument(argument) => self.put(alloc, text, argument, places),
        }
    }

    // Where the pieces of a text put operands.
    fn put_all(
        &self,
        alloc: Global,
        text: &TemplateText,
        pieces: &[Piece],
    ) -> Result<Items<(TextRange, usize)>, AllocError>
        requires within { All (RangesWithin text.now.text) pieces.now }
        requires short { HasSpans text.now }
        requires places { HasLast self.now }
        ensures { IfOk result (λ places. places ≡ places_in (heads_of self.now.list.now) (source_of text.now) pieces.now) }
    {
        let mut places = Items::new(alloc);
        for piece in pieces {
            self.put_piece(alloc, text, piece, &mut places)?;
        }
        Ok(places)
    }

    // The row of a literal, and the counter behind it.
    fn row(
        &self,
        alloc: Global,
        literal: &StringLit,
        is_direct: bool,
        counter: usize,
    ) -> Result<(AsmRow, usize), AllocError>
        requires places { HasLast self.now }
        ensures { IfOk result (λ read. IsLiteralRow (heads_of self.now.list.now) literal.now is_direct counter read.0.places read.1) }
    {
        let Some(text) = TemplateText::read(alloc, literal, is_direct)? else {
            let places = Items::new(alloc);
            return Ok((AsmRow { places }, counter));
        };
        let read = parse_asm(alloc, text.text.as_str(), counter)?;
        let places = self.put_all(alloc, &text, read.pieces.as_slice())?;
        Ok((AsmRow { places }, read.curarg))
    }

    /// The mapping of templates: a row for each, up to the last that reaches a literal.
    pub(crate) fn map_templates<M: Macros>(
        &self,
        alloc: Global,
        templates: &[Template],
        expander: &mut Expander,
        macros: &M,
    ) -> Result<Items<AsmRow>, AllocError>
        requires places { HasLast self.now }
        requires outside { is_macro expander.old.current.file_id ≡ false }
        requires depth { expander.old.depth ≡ 0 }
        ensures mapped { IfOk result (AreMapped (heads_of self.now.list.now) (literal_of (M.resolved macros.now) (M.expanded macros.now) expander.old.limit expander.old.current.file_id) templates.now) }
        ensures unchanged { expander.new ≡ expander.old }
    {
        let mut rows = Rows {
            rows: Items::new(alloc),
            counter: 0,
        };
        for (place, template) in templates.iter().enumerate() {
            self.add_row(alloc, &mut rows, place, template, expander, macros)?;
        }
        Ok(rows.rows)
    }

    // Adds the row of the template at this place, where it reaches a literal.
    fn add_row<M: Macros>(
        &self,
        alloc: Global,
        rows: &mut Rows,
        place: usize,
        template: &Template,
        expander: &mut Expander,
        macros: &M,
    ) -> Result<(), AllocError>
        requires places { HasLast self.now }
        requires outside { is_macro expander.old.current.file_id ≡ false }
        requires depth { expander.old.depth ≡ 0 }
        ensures adds { OnOk result (AddsRow (heads_of self.now.list.now) (literal_of (M.resolved macros.now) (M.expanded macros.now) expander.old.limit expander.old.current.file_id) place template.now rows.old rows.new) }
        ensures unchanged { expander.new ≡ expander.old }
    {
        let Some((literal, is_direct)) = expander.expand_macros_to_string(macros, template) else {
            return Ok(());
        };
        fill(alloc, &mut rows.rows, place)?;
        let (row, after) = self.row(alloc, literal, is_direct, rows.counter)?;
        rows.rows.push(row)?;
        rows.counter = after;
        Ok(())
    }
}

// Enters the place of an operand under its name, where it has one.
fn enter(
    places: &mut HashMap<Name, usize>,
    name: Option<&Name>,
    place: usize,
) -> Result<(), AllocError>
    ensures { OnOk result ((other : Name) → get same_name places.new other ≡ option_or (place_if place other (option_copied name.entry)) (get same_name places.old other)) }
{
    if let Some(name) = name {
        let key = name.clone()?;
        places.insert(key, place)?;
    }
    Ok(())
}

// Adds empty rows until there are so many.
fn fill(alloc: Global, rows: &mut Items<AsmRow>, count: usize) -> Result<(), AllocError>
    ensures { OnOk result (rows.new ≡ filled rows.old count) }
{
    while rows.len() < count {
        rows.push(AsmRow {
            places: Items::new(alloc),
        })?;
    }
    Ok(())
}
