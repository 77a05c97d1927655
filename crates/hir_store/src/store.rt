ghost use Rattle.std.specs.Prelude.{◌≡◌, ◌↔◌, ◌<◌, ◌⊎◌, [], Some, None, length, IsTrue, IfOk, OnErr};

use crate::{AsmRow, Binding, BindingId, CaptureSource, Expr, ExprId, ExprMap, Pat, PatId};
use la_arena::{Arena, ArenaError};
use sqlite_items::Items;
use std::alloc::{AllocError, Global};
use sym_core::{AstPtr, InFile, Name, TextRange};

/// The expressions, patterns and bindings of a body, and where they come from in the source.
///
/// A store only grows: an index, once given, names the same expression, pattern or binding from then on. Where `source(n)`
/// is node `n` of a file:
///
/// ```
/// let mut store = ExpressionStore::new(rt.alloc());
/// let leaf = store.alloc_expr(Expr::Leaf(7), source(5))?;
/// let reference = store.alloc_expr_desugared(Expr::Ref(leaf))?;
/// assert!(rt; matches!(store.exprs[reference.idx()], Expr::Ref(_)));
/// assert_eq!(rt; store.expr_map_back.get(leaf), Some(&source(5)));
/// assert!(rt; store.expr_map_back.get(reference).is_none());
/// ```
#[derive(Debug, Drop)]
pub struct ExpressionStore {
    /// The expressions, each behind its parts.
    pub exprs: Arena<Expr>,
    /// The patterns on the left of `let`s.
    pub pats: Arena<Pat>,
    /// What the patterns bind.
    pub bindings: Arena<Binding>,
    /// The source of each expression that stands in one.
    pub expr_map_back: ExprMap<InFile<AstPtr>>,
    /// For each expression that a format call captures, where the call names it.
    pub implicit_capture_to_source: ExprMap<InFile<CaptureSource>>,
    /// For each format call, the ranges of its literal that name a captured variable, with the names.
    pub format_args_to_captures: ExprMap<Items<(TextRange, Name)>>,
    /// For each call of inline assembly, which operands its templates put, template by template.
    pub asm_to_captures: ExprMap<Items<AsmRow>>,
}

impl ExpressionStore {
    ghost use Rattle.hir_store.specs.Tree.{Missing, is_whole};
    ghost use Rattle.hir_store.specs.Unfolding.{tree_over, binding_name, bound_name, name_in};
    ghost use Rattle.la_arena.specs.Idx.{number_of};
    ghost use Rattle.hir_store.specs.Sources.{SameMaps, EntersSource};
    ghost use Rattle.hir_store.specs.Store.{Grows, Stands, IsEmptyStore, NoDanglingIds, PlacesExpr, PlacesNewest, PlacesPat, PlacesBinding, BindsWithin, Defines, EachDefines};

    /// An empty store, which takes no memory.
    pub fn new(alloc: Global) -> ExpressionStore
        ensures empty { IsEmptyStore result }
        ensures no_dangling { NoDanglingIds result }
        ensures defined { EachDefines result }
    {
        ExpressionStore {
            exprs: Arena::new(alloc),
            pats: Arena::new(alloc),
            bindings: Arena::new(alloc),
            expr_map_back: ExprMap::new(alloc),
            implicit_capture_to_source: ExprMap::new(alloc),
            format_args_to_captures: ExprMap::new(alloc),
            asm_to_captures: ExprMap::new(alloc),
        }
    }

    /// Places an expression with its source, and returns its index.
    ///
    /// # Errors
    ///
    /// `Full` comes exactly where the store holds 4,294,967,295 expressions, and leaves the store as it was. Where no
    /// memory is left for the source, the expression may stay, and has no source.
    pub fn alloc_expr(&mut self, expr: Expr, ptr: InFile<AstPtr>) -> Result<ExprId, ArenaError>
        ensures placed { IfOk result (λ id. PlacesExpr self.old expr id self.new) }
        ensures source { IfOk result (λ id. EntersSource self.old id ptr self.new) }
        ensures full { result ≡ Err ArenaError.Full ↔ (length self.old.exprs ≡ 4_294_967_295) }
        ensures unchanged { result ≡ Err ArenaError.Full → self.new ≡ self.old }
        ensures err { OnErr result (self.new ≡ self.old ⊎ PlacesNewest self.old expr self.new) }
        ensures grows { Grows self.old self.new }
        ensures stands { IsTrue (is_whole (tree_over self.old expr)) → IfOk result (λ id. Stands self.new id (tree_over self.old expr)) }
        ensures kept { NoDanglingIds self.old → IsTrue (is_whole (tree_over self.old expr)) → NoDanglingIds self.new }
    {
        let id = self.alloc_expr_desugared(expr)?;
        match self.expr_map_back.insert(id, ptr) {
            Ok(()) => Ok(id),
            Err(_) => Err(ArenaError::Memory(AllocError)),
        }
    }

    /// Places an expression that stands nowhere in the source, and returns its index.
    ///
    /// # Errors
    ///
    /// `Full` comes exactly where the store holds 4,294,967,295 expressions.
    pub fn alloc_expr_desugared(&mut self, expr: Expr) -> Result<ExprId, ArenaError>
        ensures placed { IfOk result (λ id. PlacesExpr self.old expr id self.new) }
        ensures maps { SameMaps self.old self.new }
        ensures full { result ≡ Err ArenaError.Full ↔ (length self.old.exprs ≡ 4_294_967_295) }
        ensures err { OnErr result (self.new ≡ self.old) }
        ensures grows { Grows self.old self.new }
        ensures stands { IsTrue (is_whole (tree_over self.old expr)) → IfOk result (λ id. Stands self.new id (tree_over self.old expr)) }
        ensures kept { NoDanglingIds self.old → IsTrue (is_whole (tree_over self.old expr)) → NoDanglingIds self.new }
    {
        let idx = self.exprs.alloc(expr)?;
        Ok(ExprId::from(idx))
    }

    /// Places an absent expression, and returns its index.
    ///
    /// # Errors
    ///
    /// `Full` comes exactly where the store holds 4,294,967,295 expressions.
    pub fn missing_expr(&mut self) -> Result<ExprId, ArenaError>
        ensures placed { IfOk result (λ id. PlacesExpr self.old Expr.Missing id self.new) }
        ensures maps { SameMaps self.old self.new }
        ensures full { result ≡ Err ArenaError.Full ↔ (length self.old.exprs ≡ 4_294_967_295) }
        ensures err { OnErr result (self.new ≡ self.old) }
        ensures grows { Grows self.old self.new }
        ensures stands { IfOk result (λ id. Stands self.new id Missing) }
        ensures kept { NoDanglingIds self.old → NoDanglingIds self.new }
    {
        self.alloc_expr_desugared(Expr::Missing)
    }

    /// Places a binding of this name, which no pattern defines yet, and returns its index.
    ///
    /// ```
    /// let first = store.alloc_binding(Name::fresh(0))?;
    /// let second = store.alloc_binding(Name::fresh(1))?;
    /// let pat = store.alloc_pat(Pat::Bind(second))?;
    /// store.add_definition_to_binding(second, pat);
    /// assert_eq!(rt; store.bindings[first.idx()].definition, None);
    /// assert_eq!(rt; store.bindings[second.idx()].definition, Some(pat));
    /// ```
    ///
    /// # Errors
    ///
    /// `Full` comes exactly where the store holds 4,294,967,295 bindings.
    pub fn alloc_binding(&mut self, name: Name) -> Result<BindingId, ArenaError>
        ensures placed { IfOk result (λ id. PlacesBinding self.old (record { name = name; definition = None }) id self.new) }
        ensures maps { SameMaps self.old self.new }
        ensures full { result ≡ Err ArenaError.Full ↔ (length self.old.bindings ≡ 4_294_967_295) }
        ensures err { OnErr result (self.new ≡ self.old) }
        ensures grows { Grows self.old self.new }
        ensures named { IfOk result (λ id. binding_name self.new.bindings id ≡ Some name) }
        ensures kept { NoDanglingIds self.old → NoDanglingIds self.new }
    {
        let binding = Binding {
            name,
            definition: None,
        };
        let idx = self.bindings.alloc(binding)?;
        Ok(BindingId::from(idx))
    }

    /// Places a pattern, and returns its index, as the example of [`ExpressionStore::alloc_binding`] shows.
    ///
    /// # Errors
    ///
    /// `Full` comes exactly where the store holds 4,294,967,295 patterns.
    pub fn alloc_pat(&mut self, pat: Pat) -> Result<PatId, ArenaError>
        ensures placed { IfOk result (λ id. PlacesPat self.old pat id self.new) }
        ensures maps { SameMaps self.old self.new }
        ensures full { result ≡ Err ArenaError.Full ↔ (length self.old.pats ≡ 4_294_967_295) }
        ensures err { OnErr result (self.new ≡ self.old) }
        ensures grows { Grows self.old self.new }
        ensures named { IfOk result (λ id. name_in self.new id ≡ bound_name self.old.bindings (Some pat)) }
        ensures kept { NoDanglingIds self.old → BindsWithin self.old pat → NoDanglingIds self.new }
    {
        let idx = self.pats.alloc(pat)?;
        Ok(PatId::from(idx))
    }

    /// Makes a pattern the definition of a binding, as the example of [`ExpressionStore::alloc_binding`] shows. The binding
    /// must be in the store.
    pub fn add_definition_to_binding(&mut self, binding: BindingId, pat: PatId)
        requires { number_of binding.raw < length self.old.bindings }
        ensures defines { Defines self.old binding pat self.new }
        ensures maps { SameMaps self.old self.new }
        ensures kept { NoDanglingIds self.old → number_of pat.raw < length self.old.pats → NoDanglingIds self.new }
    {
        self.bindings[binding.idx()].definition = Some(pat);
    }
}
