ghost use Rattle.std.specs.Prelude.{◌≡◌, ◌+◌, ◌*◌, ◌<◌, ◌≤◌, ℕ, length, IfOk, IfSome, option_map, OnOk};
ghost use Rattle.sym_core.specs.declared.files.HirFileId.TheVariants.{File};
ghost use Rattle.hir_expander.specs.Machine.{max_recursion_limit};
ghost use Rattle.hir_expander.specs.Reached.{literal_of, is_direct};
ghost use Rattle.hir_store.specs.Unfolding.{place_of};
ghost use Rattle.hir_store.specs.PartsBelow.{AllBelow};
ghost use Rattle.hir_store.specs.Store.{Grows, NoDanglingIds, IsEmptyStore, EachDefines};
ghost use Rattle.hir_build.specs.Building.{Outgrows};
ghost use Rattle.template_bytes.specs.Canonical.{canonical_pieces};
ghost use Rattle.template_bytes.specs.Pairs.{pairs_of};
ghost use Rattle.hir_asm.specs.Lowered.{IsAsmCode, most_of};
ghost use Rattle.hir_lower.specs.Collector.{Stays, around, frame_of};
ghost use Rattle.hir_lower.specs.FormatArgs.{IsCodeOf, exprs_of, fresh_behind};
ghost use Rattle.hir_lower.specs.CallCode.{IsCallCode};
ghost use Rattle.hir_lower.specs.Lowered.{reaches, AreOutcomes, AreRising, AreInStore, IsMost, AreMost, Lowers, most_lets};

use crate::asm::lower_asm_call;
use crate::call::lower_format_call;
use crate::format_args::build_format_args;
use crate::lowering::Lowering;
use crate::{GatedCall, LowerError, Outcome};
use hir_build::Builder;
use hir_expander::{Expander, Macros};
use hir_fmt::FormatArgs;
use hir_store::{ExprId, ExpressionStore, LangItems};
use ra_cfg::CfgOptions;
use std::alloc::Global;
use std::marker::Model;
use sym_core::{AstPtr, FileId, HirFileId};
use syn_trees::{AsmCall, FormatCall, StringLit, Template};

/// Lowers calls of one file into a store of its own.
///
/// Where the options have `unix`, and the calls are `format_args!("a")` under the predicate `windows` and
/// `format_args!("b")` under `unix`, the first is off and the second becomes three expressions:
///
/// ```
/// let mut collector = ExprCollector::new(alloc, &macros, file, 128, items);
/// let outcomes = collector.collect_gated(alloc, &calls, &options, &macros)?;
/// assert!(rt; matches!(outcomes.as_slice(), [Outcome::Off { .. }, Outcome::Code(_)]));
/// assert_eq!(rt; collector.store().exprs.len(), 3);
/// ```
///
/// Between two of its calls a collector stands in its file, outside of all expansions, after a refusal too. What stood
/// in the store before a call stays there: expressions, patterns and bindings keep index and value, and the maps keep
/// what they held at them. A call that is refused may leave what it placed before.
#[derive(Drop)]
pub struct ExprCollector {
    inside: Lowering,
}

impl Model for ExprCollector {
    ghost use Rattle.hir_lower.specs.Collector.{Collector, IsAtRest, collector_of};

    ghost Value = { Collector };

    ghost view = { λ collector. collector_of collector.inside.builder collector.inside.expander };

    ghost invariant = { λ collector. IsAtRest collector.inside.builder collector.inside.expander };
}

impl ExprCollector {
    /// Creates a collector with an empty store, which takes no memory. Its calls stand in this file, and lie at most as
    /// deep in expansions as the recursion limit and one more. Language items that are not there are missing in code.
    pub fn new<M: Macros>(
        alloc: Global,
        macros: &M,
        file: FileId,
        recursion_limit: u32,
        items: LangItems,
    ) -> ExprCollector
        requires limit { recursion_limit ≤ max_recursion_limit }
        ensures empty { IsEmptyStore result.store }
        ensures fresh { result.fresh ≡ 0 }
        ensures file { result.file ≡ File file }
        ensures limit { result.limit ≡ recursion_limit }
        ensures items { result.items ≡ items }
    {
        let file = HirFileId::File(file);
        ExprCollector {
            inside: Lowering {
                builder: Builder::new(alloc, file, items),
                expander: Expander::new(macros, file, 0, recursion_limit),
            },
        }
    }

    /// Returns the store with what was lowered so far; for an example see [`ExprCollector`].
    ///
    /// Whatever it names is in it: every part of an expression stands before the whole, and the maps name expressions
    /// alone. Each pattern is the definition of the binding that it binds.
    pub fn store(&self) -> &ExpressionStore
        ensures value { result.now ≡ self.now.store }
        ensures placed { NoDanglingIds result.now }
        ensures defined { EachDefines result.now }
    {
        self.inside.builder.store()
    }

    /// Reads a template as a string literal, through macro calls too: returns the literal that it reaches, and whether
    /// the template is that literal itself. None where it is anything else, or a call that does not lead to a literal
    /// within the recursion limit. It takes no memory.
    pub fn expand_macros_to_string<'t, M: Macros>(
        &mut self,
        template: &'t Template,
        macros: &'t M,
    ) -> Option<(&'t StringLit, bool)>
        ensures literal { option_map (λ reached. reached.0.now) result ≡ literal_of (M.resolved macros.now) (M.expanded macros.now) self.old.limit self.old.file template.now }
        ensures direct { IfSome result (λ reached. reached.1 ≡ is_direct template.now) }
        ensures unchanged { self.new ≡ self.old }
    {
        self.inside
            .expander
            .expand_macros_to_string(macros, template)
    }

    /// Lowers a call of `format_args!`, whatever it is, and returns its code.
    ///
    /// The text of a call is the value of the literal that its template reaches. Where there is none, or the text is no
    /// format string, the code is that of an empty text. The map of captures has the spans of the names that
    /// placeholders use, at the code.
    ///
    /// # Errors
    ///
    /// `ArenaFull` comes only where an arena does not hold as many more as the call places at most: of n arguments,
    /// captured ones among them, and p pairs of an argument and a use these are 2n + 4p + 9 expressions, two patterns
    /// and two bindings. `Memory` may come from every call.
    pub fn collect_format_args<M: Macros>(
        &mut self,
        alloc: Global,
        f: &FormatCall,
        macros: &M,
    ) -> Result<ExprId, LowerError>
        ensures code { IfOk result (λ made. IsCallCode (around (M.resolved macros.now) (M.expanded macros.now) self.old) f.now self.old.fresh self.new.store made) }
        ensures later { IfOk result (λ made. length self.old.store.exprs ≤ place_of made) }
        ensures stays { Stays self.old self.new }
        ensures older { Grows self.old.store self.new.store }
        ensures count { (most : ℕ) → IsMost (around (M.resolved macros.now) (M.expanded macros.now) self.old) f.now most → length self.new.store.exprs ≤ length self.old.store.exprs + most }
        ensures patterns { length self.new.store.pats ≤ length self.old.store.pats + 2 }
        ensures bindings { length self.new.store.bindings ≤ length self.old.store.bindings + 2 }
        ensures full { result ≡ Err LowerError.ArenaFull → (most : ℕ) → IsMost (around (M.resolved macros.now) (M.expanded macros.now) self.old) f.now most → Outgrows self.old.store most 2 }
    {
        let Lowering { builder, expander } = &mut self.inside;
        lower_format_call(builder, expander, alloc, f, macros)
    }

    /// Lowers a parsed template over its arguments, whose expressions stand in the store already, and returns its code,
    /// which is at this pointer.
    ///
    /// An argument that a piece refers to and that is not there is a missing expression in the code. Nothing is entered
    /// into what format calls capture.
    ///
    /// # Errors
    ///
    /// As of [`ExprCollector::collect_format_args`], where n arguments count once alone: n + 4p + 9.
    pub fn collect_format_args_impl(
        &mut self,
        alloc: Global,
        ptr: AstPtr,
        fmt: FormatArgs,
    ) -> Result<ExprId, LowerError>
        requires arguments { AllBelow (length self.old.store.exprs) (exprs_of fmt.arguments.arguments) }
        requires orphans { AllBelow (length self.old.store.exprs) fmt.orphans }
        ensures code { IfOk result (λ made. IsCodeOf (frame_of self.old) self.new.store ptr fmt made) }
        ensures later { IfOk result (λ made. length self.old.store.exprs ≤ place_of made) }
        ensures newest { IfOk result (λ made. place_of made + 1 ≡ length self.new.store.exprs) }
        ensures fresh { OnOk result (self.new.fresh ≡ fresh_behind self.old.fresh fmt) }
        ensures captures { self.new.store.format_args_to_captures ≡ self.old.store.format_args_to_captures }
        ensures stays { Stays self.old self.new }
        ensures older { Grows self.old.store self.new.store }
        ensures count { length self.new.store.exprs ≤ length self.old.store.exprs + (length fmt.arguments.arguments + 4 * length (pairs_of (canonical_pieces fmt.template)) + 9) }
        ensures patterns { length self.new.store.pats ≤ length self.old.store.pats + 2 }
        ensures bindings { length self.new.store.bindings ≤ length self.old.store.bindings + 2 }
        ensures full { result ≡ Err LowerError.ArenaFull → Outgrows self.old.store (length fmt.arguments.arguments + 4 * length (pairs_of (canonical_pieces fmt.template)) + 9) 2 }
    {
        build_format_args(&mut self.inside.builder, alloc, ptr, &fmt)
    }

    /// Lowers a call of inline assembly under options, and returns its code.
    ///
    /// Its operands and its options are those of its pieces that none of their predicates switches off, in order. The map of
    /// inline assembly has at the code which operands the templates put: a number denotes the operand at that place, where it
    /// has neither a name nor a register of its own; a name the last operand that bears it.
    ///
    /// # Errors
    ///
    /// `ArenaFull` comes only where the store does not hold as many more expressions as the call places at most: of k pieces
    /// these are 2k + 1. `Memory` may come from every call.
    pub fn lower_inline_asm<M: Macros>(
        &mut self,
        alloc: Global,
        asm: &AsmCall,
        opts: &CfgOptions,
        macros: &M,
    ) -> Result<ExprId, LowerError>
        ensures code { IfOk result (λ made. IsAsmCode opts.now (reaches (around (M.resolved macros.now) (M.expanded macros.now) self.old)) self.old.file asm.now self.new.store made) }
        ensures later { IfOk result (λ made. length self.old.store.exprs ≤ place_of made) }
        ensures fresh { self.new.fresh ≡ self.old.fresh }
        ensures stays { Stays self.old self.new }
        ensures older { Grows self.old.store self.new.store }
        ensures count { length self.new.store.exprs ≤ length self.old.store.exprs + most_of asm.now }
        ensures patterns { length self.new.store.pats ≤ length self.old.store.pats }
        ensures bindings { length self.new.store.bindings ≤ length self.old.store.bindings }
        ensures full { result ≡ Err LowerError.ArenaFull → Outgrows self.old.store (most_of asm.now) 0 }
    {
        let Lowering { builder, expander } = &mut self.inside;
        lower_asm_call(builder, expander, alloc, asm, opts, macros)
    }

    /// Lowers calls under options, one after the other, and returns one outcome for each, in order.
    ///
    /// A call is off exactly where one of its predicates, each taken by itself, evaluates to `Some(false)`; it then
    /// leaves the store as it was. The code of any other call stands behind all that stood there before the call.
    ///
    /// The code of a well formed `format_args!` evaluates its arguments once each, in order, the captured ones behind
    /// those that are written, and then yields a value that means exactly the writes of the call's text. A call is well
    /// formed where its template reaches a literal whose value is a format string, every reference of the text refers
    /// to an argument, every written argument has an expression and is referred to, and both language items are there.
    /// Where a text with a placeholder does not refer to an argument, the code evaluates it once more, behind all; a call
    /// without a text evaluates its arguments and writes nothing. For the code of inline assembly see
    /// [`ExprCollector::lower_inline_asm`].
    ///
    /// For an example see [`ExprCollector`].
    ///
    /// # Errors
    ///
    /// `ArenaFull` comes only where an arena does not hold as many more as the calls place at most: a call that is off
    /// places nothing, for any other see [`ExprCollector::collect_format_args`]. `Memory` may come wherever a call is
    /// lowered.
    pub fn collect_gated<M: Macros>(
        &mut self,
        alloc: Global,
        calls: &[GatedCall],
        opts: &CfgOptions,
        macros: &M,
    ) -> Result<Vec<Outcome>, LowerError>
        ensures outcomes { IfOk result (λ outcomes. AreOutcomes opts.now (around (M.resolved macros.now) (M.expanded macros.now) self.old) self.new.store calls.now outcomes.items) }
        ensures rising { IfOk result (λ outcomes. AreRising (length self.old.store.exprs) outcomes.items) }
        ensures within { IfOk result (λ outcomes. AreInStore self.new.store outcomes.items) }
        ensures lowers { IfOk result (λ outcomes. Lowers opts.now (around (M.resolved macros.now) (M.expanded macros.now) self.old) calls.now outcomes.items (frame_of self.old) (frame_of self.new)) }
        ensures stays { Stays self.old self.new }
        ensures older { Grows self.old.store self.new.store }
        ensures count { (most : ℕ) → AreMost opts.now (around (M.resolved macros.now) (M.expanded macros.now) self.old) calls.now most → length self.new.store.exprs ≤ length self.old.store.exprs + most }
        ensures patterns { length self.new.store.pats ≤ length self.old.store.pats + most_lets opts.now calls.now }
        ensures bindings { length self.new.store.bindings ≤ length self.old.store.bindings + most_lets opts.now calls.now }
        ensures full { result ≡ Err LowerError.ArenaFull → (most : ℕ) → AreMost opts.now (around (M.resolved macros.now) (M.expanded macros.now) self.old) calls.now most → Outgrows self.old.store most (most_lets opts.now calls.now) }
    {
        self.inside.lower_all(alloc, calls, opts, macros)
    }
}
