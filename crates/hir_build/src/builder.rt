ghost use Rattle.std.specs.Prelude.{◌≡◌, ◌≢◌, ◌+◌, ◌<◌, ◌≤◌, max, [], ◌∷◌, ◌++◌, length, Some, None, IfOk, OnOk, OnErr};
ghost use Rattle.sym_core.specs.declared.name.Name.{Name};
ghost use Rattle.hir_store.specs.Tree.{Missing, Leaf, Path, Ref, Tuple, Field, Array, Call, Block};
ghost use Rattle.hir_store.specs.Tree as tree;
ghost use Rattle.hir_store.specs.Unfolding.{place_of, name_in, trees_of, steps_of, operands_of, literal_tree, tree_at, tree_over};
ghost use Rattle.hir_store.specs.PartsBelow.{AllBelow, OperandsBelow};
ghost use Rattle.hir_store.specs.Store.{IsEmptyStore, NoDanglingIds, EachDefines};
ghost use Rattle.hir_build.specs.Origins.{bare, from_source, all_origins, steps_origins, operands_origins, origins_at, origins_over};
ghost use Rattle.hir_build.specs.Callee.{has_item, callee_tree, callee_origin};
ghost use Rattle.hir_build.specs.Placed.{Placed, AllPlaced, IsLet, StatementIn, StatementsIn, PartsIn, reference_trees, reference_origins};
ghost use Rattle.hir_build.specs.Building.{SameCaptures, Builds, Outgrows};
ghost use Rattle.hir_build.specs.Captures.{capture_origin, EntersCapture, Notes, NotesMapping};

use crate::LowerError;
use hir_store::{
    AsmRow, CaptureSource, Expr, ExprId, ExprIds, ExpressionStore, InlineAsm, LangFn, LangItem,
    LangItems, Literal, Pat, Statement,
};
use sqlite_items::{Boxed, Items};
use std::alloc::Global;
use std::marker::Model;
use sym_core::{AstPtr, HirFileId, InFile, Name, TextRange};

/// Builds code in a store of its own, one node after the other: a part is placed before what it is a part of.
///
/// A node is named by its index alone, and an index that a call returned may be handed to each later call. Pointers are
/// entered with the file of the builder. Where `ptr` points to the argument `x` of a file:
///
/// ```
/// let mut builder = Builder::new(rt.alloc(), file, items);
/// let x = builder.leaf(7, Some(ptr))?;
/// let reference = builder.reference(x)?;
/// assert!(rt; matches!(builder.store().exprs[reference.idx()], Expr::Ref(_)));
/// assert_eq!(rt; builder.store().expr_map_back.get(x), Some(&InFile { file_id: file, value: ptr }));
/// ```
///
/// A call that is refused may leave what it placed before. `ArenaFull` comes only where an arena holds too many values
/// for those that the call places, and `Memory` may come from each call that places something.
#[derive(Debug, Drop)]
pub struct Builder {
    alloc: Global,
    store: ExpressionStore,
    // How many fresh names have a binding.
    fresh: u32,
    file: HirFileId,
    items: LangItems,
}

impl Model for Builder {
    ghost use Rattle.hir_build.specs.Frame.{Frame, IsSound};

    ghost Value = { Frame };

    ghost view = { λ builder. record { store = builder.store; fresh = builder.fresh; file = builder.file; items = builder.items } };

    ghost invariant = { λ builder. IsSound builder.store builder.fresh };
}

impl Builder {
    /// Creates a builder with an empty store, which takes no memory.
    pub fn new(alloc: Global, file: HirFileId, items: LangItems) -> Builder
        ensures empty { IsEmptyStore result.store }
        ensures fresh { result.fresh ≡ 0 }
        ensures file { result.file ≡ file }
        ensures items { result.items ≡ items }
    {
        Builder {
            alloc,
            store: ExpressionStore::new(alloc),
            fresh: 0,
            file,
            items,
        }
    }

    /// Returns the store with what was built so far.
    ///
    /// Whatever it names is in it: every part of an expression stands before the whole, and the maps name expressions
    /// alone. Each pattern is the definition of the binding that it binds.
    pub fn store(&self) -> &ExpressionStore
        ensures value { result.now ≡ self.now.store }
        ensures placed { NoDanglingIds result.now }
        ensures defined { EachDefines result.now }
    {
        &self.store
    }

    /// Returns which language items there are.
    pub fn items(&self) -> LangItems
        ensures { result ≡ self.now.items }
    {
        self.items
    }

    /// Returns the file whose pointers are entered.
    pub fn file(&self) -> HirFileId
        ensures { result ≡ self.now.file }
    {
        self.file
    }

    /// Returns the number of the next fresh name.
    pub fn next_fresh(&self) -> u32
        ensures { result ≡ self.now.fresh }
    {
        self.fresh
    }

    /// Places a missing expression, with its pointer where it has one.
    pub fn missing(&mut self, ptr: Option<AstPtr>) -> Result<ExprId, LowerError>
        ensures placed { IfOk result (λ made. Placed self.new.store made Missing (from_source self.old.file ptr ∷ [])) }
        ensures later { IfOk result (λ made. length self.old.store.exprs ≤ place_of made) }
        ensures newest { IfOk result (λ made. place_of made + 1 ≡ length self.new.store.exprs) }
        ensures builds { Builds self.old self.new 1 0 }
        ensures captures { SameCaptures self.old.store self.new.store }
        ensures longer { length self.old.store.exprs ≤ length self.new.store.exprs }
        ensures full { result ≡ Err LowerError.ArenaFull → Outgrows self.old.store 1 0 }
    {
        self.place(Expr::Missing, ptr)
    }

    /// Places an argument expression of the source by its number, with its pointer where it has one.
    pub fn leaf(&mut self, n: u32, ptr: Option<AstPtr>) -> Result<ExprId, LowerError>
        ensures placed { IfOk result (λ made. Placed self.new.store made (Leaf n) (from_source self.old.file ptr ∷ [])) }
        ensures later { IfOk result (λ made. length self.old.store.exprs ≤ place_of made) }
        ensures newest { IfOk result (λ made. place_of made + 1 ≡ length self.new.store.exprs) }
        ensures builds { Builds self.old self.new 1 0 }
        ensures captures { SameCaptures self.old.store self.new.store }
        ensures longer { length self.old.store.exprs ≤ length self.new.store.exprs }
        ensures full { result ≡ Err LowerError.ArenaFull → Outgrows self.old.store 1 0 }
    {
        self.place(Expr::Leaf(n), ptr)
    }

    /// Places a path of one name, with its pointer where it has one.
    pub fn path(&mut self, name: Name, ptr: Option<AstPtr>) -> Result<ExprId, LowerError>
        ensures placed { IfOk result (λ made. Placed self.new.store made (Path name) (from_source self.old.file ptr ∷ [])) }
        ensures later { IfOk result (λ made. length self.old.store.exprs ≤ place_of made) }
        ensures newest { IfOk result (λ made. place_of made + 1 ≡ length self.new.store.exprs) }
        ensures builds { Builds self.old self.new 1 0 }
        ensures captures { SameCaptures self.old.store self.new.store }
        ensures longer { length self.old.store.exprs ≤ length self.new.store.exprs }
        ensures full { result ≡ Err LowerError.ArenaFull → Outgrows self.old.store 1 0 }
    {
        self.place(Expr::Path(name), ptr)
    }

    /// Places a literal, with its pointer where it has one.
    pub fn literal(&mut self, l: Literal, ptr: Option<AstPtr>) -> Result<ExprId, LowerError>
        ensures placed { IfOk result (λ made. Placed self.new.store made (literal_tree l) (from_source self.old.file ptr ∷ [])) }
        ensures later { IfOk result (λ made. length self.old.store.exprs ≤ place_of made) }
        ensures newest { IfOk result (λ made. place_of made + 1 ≡ length self.new.store.exprs) }
        ensures builds { Builds self.old self.new 1 0 }
        ensures captures { SameCaptures self.old.store self.new.store }
        ensures longer { length self.old.store.exprs ≤ length self.new.store.exprs }
        ensures full { result ≡ Err LowerError.ArenaFull → Outgrows self.old.store 1 0 }
    {
        self.place(Expr::Literal(l), ptr)
    }

    /// Places the path of a function of a language item, with its pointer where it has one.
    ///
    /// Where the item is not there, a missing expression is placed, and no pointer is entered for it.
    pub fn callee(
        &mut self,
        item: LangItem,
        function: LangFn,
        ptr: Option<AstPtr>,
    ) -> Result<ExprId, LowerError>
        ensures placed { IfOk result (λ made. Placed self.new.store made (callee_tree self.old.items item function) (callee_origin self.old.items item self.old.file ptr ∷ [])) }
        ensures later { IfOk result (λ made. length self.old.store.exprs ≤ place_of made) }
        ensures newest { IfOk result (λ made. place_of made + 1 ≡ length self.new.store.exprs) }
        ensures builds { Builds self.old self.new 1 0 }
        ensures captures { SameCaptures self.old.store self.new.store }
        ensures longer { length self.old.store.exprs ≤ length self.new.store.exprs }
        ensures full { result ≡ Err LowerError.ArenaFull → Outgrows self.old.store 1 0 }
    {
        if has_item(self.items, item) {
            self.place(Expr::LangPath(item, function), ptr)
        } else {
            self.place(Expr::Missing, None)
        }
    }

    /// Places a shared reference, `&id`.
    pub fn reference(&mut self, id: ExprId) -> Result<ExprId, LowerError>
        requires within { place_of id < length self.old.store.exprs }
        ensures placed { IfOk result (λ made. Placed self.new.store made (Ref (tree_at self.old.store id)) (bare ∷ origins_at self.old.store id)) }
        ensures later { IfOk result (λ made. length self.old.store.exprs ≤ place_of made) }
        ensures newest { IfOk result (λ made. place_of made + 1 ≡ length self.new.store.exprs) }
        ensures builds { Builds self.old self.new 1 0 }
        ensures captures { SameCaptures self.old.store self.new.store }
        ensures longer { length self.old.store.exprs ≤ length self.new.store.exprs }
        ensures full { result ≡ Err LowerError.ArenaFull → Outgrows self.old.store 1 0 }
    {
        self.place(Expr::Ref(id), None)
    }

    /// Places a field of a value, `id.name`.
    pub fn field(&mut self, id: ExprId, name: Name) -> Result<ExprId, LowerError>
        requires within { place_of id < length self.old.store.exprs }
        ensures placed { IfOk result (λ made. Placed self.new.store made (Field (tree_at self.old.store id) name) (bare ∷ origins_at self.old.store id)) }
        ensures later { IfOk result (λ made. length self.old.store.exprs ≤ place_of made) }
        ensures newest { IfOk result (λ made. place_of made + 1 ≡ length self.new.store.exprs) }
        ensures builds { Builds self.old self.new 1 0 }
        ensures captures { SameCaptures self.old.store self.new.store }
        ensures longer { length self.old.store.exprs ≤ length self.new.store.exprs }
        ensures full { result ≡ Err LowerError.ArenaFull → Outgrows self.old.store 1 0 }
    {
        self.place(Expr::Field { expr: id, name }, None)
    }

    /// Places a tuple, `(first, second)`.
    pub fn tuple(&mut self, parts: ExprIds) -> Result<ExprId, LowerError>
        requires within { AllBelow (length self.old.store.exprs) parts }
        ensures placed { IfOk result (λ made. Placed self.new.store made (Tuple (trees_of (tree_at self.old.store) parts)) (bare ∷ all_origins (origins_at self.old.store) parts)) }
        ensures later { IfOk result (λ made. length self.old.store.exprs ≤ place_of made) }
        ensures newest { IfOk result (λ made. place_of made + 1 ≡ length self.new.store.exprs) }
        ensures builds { Builds self.old self.new 1 0 }
        ensures captures { SameCaptures self.old.store self.new.store }
        ensures longer { length self.old.store.exprs ≤ length self.new.store.exprs }
        ensures full { result ≡ Err LowerError.ArenaFull → Outgrows self.old.store 1 0 }
    {
        self.place(Expr::Tuple(parts), None)
    }

    /// Places an array of its elements, `[first, second]`.
    pub fn array(&mut self, parts: ExprIds) -> Result<ExprId, LowerError>
        requires within { AllBelow (length self.old.store.exprs) parts }
        ensures placed { IfOk result (λ made. Placed self.new.store made (Array (trees_of (tree_at self.old.store) parts)) (bare ∷ all_origins (origins_at self.old.store) parts)) }
        ensures later { IfOk result (λ made. length self.old.store.exprs ≤ place_of made) }
        ensures newest { IfOk result (λ made. place_of made + 1 ≡ length self.new.store.exprs) }
        ensures builds { Builds self.old self.new 1 0 }
        ensures captures { SameCaptures self.old.store self.new.store }
        ensures longer { length self.old.store.exprs ≤ length self.new.store.exprs }
        ensures full { result ≡ Err LowerError.ArenaFull → Outgrows self.old.store 1 0 }
    {
        self.place(Expr::Array(parts), None)
    }

    /// Places a call, `callee(args)`, with its pointer where it has one.
    pub fn call(
        &mut self,
        callee: ExprId,
        args: ExprIds,
        ptr: Option<AstPtr>,
    ) -> Result<ExprId, LowerError>
        requires within { place_of callee < length self.old.store.exprs }
        requires args_within { AllBelow (length self.old.store.exprs) args }
        ensures placed { IfOk result (λ made. Placed self.new.store made
            (Call (tree_at self.old.store callee) (trees_of (tree_at self.old.store) args))
            (from_source self.old.file ptr ∷ (origins_at self.old.store callee ++ all_origins (origins_at self.old.store) args))) }
        ensures later { IfOk result (λ made. length self.old.store.exprs ≤ place_of made) }
        ensures newest { IfOk result (λ made. place_of made + 1 ≡ length self.new.store.exprs) }
        ensures builds { Builds self.old self.new 1 0 }
        ensures captures { SameCaptures self.old.store self.new.store }
        ensures longer { length self.old.store.exprs ≤ length self.new.store.exprs }
        ensures full { result ≡ Err LowerError.ArenaFull → Outgrows self.old.store 1 0 }
    {
        self.place(Expr::Call { callee, args }, ptr)
    }

    /// Places a block of statements and a tail, `{ statements tail }`, with its pointer where it has one.
    ///
    /// The patterns and the expressions that the statements name must be in the store.
    pub fn block(
        &mut self,
        statements: Items<Statement>,
        tail: ExprId,
        is_unsafe: bool,
        ptr: Option<AstPtr>,
    ) -> Result<ExprId, LowerError>
        requires within { StatementsIn self.old.store statements }
        requires tail_within { place_of tail < length self.old.store.exprs }
        ensures placed { IfOk result (λ made. Placed self.new.store made
            (Block is_unsafe (steps_of (name_in self.old.store) (tree_at self.old.store) statements (Some tail)))
            (from_source self.old.file ptr ∷ steps_origins (origins_at self.old.store) statements (Some tail))) }
        ensures later { IfOk result (λ made. length self.old.store.exprs ≤ place_of made) }
        ensures newest { IfOk result (λ made. place_of made + 1 ≡ length self.new.store.exprs) }
        ensures builds { Builds self.old self.new 1 0 }
        ensures captures { SameCaptures self.old.store self.new.store }
        ensures longer { length self.old.store.exprs ≤ length self.new.store.exprs }
        ensures full { result ≡ Err LowerError.ArenaFull → Outgrows self.old.store 1 0 }
    {
        let statements = Boxed::new(self.alloc, statements)?;
        let expr = Expr::Block {
            tail: Some(tail),
            is_unsafe,
            statements,
        };
        self.place(expr, ptr)
    }

    /// Places inline assembly, with its pointer where it has one.
    ///
    /// The expressions of its operands must be in the store.
    pub fn inline_asm(&mut self, asm: InlineAsm, ptr: Option<AstPtr>) -> Result<ExprId, LowerError>
        requires within { OperandsBelow (length self.old.store.exprs) asm.operands }
        ensures placed { IfOk result (λ made. Placed self.new.store made
            (tree.InlineAsm asm.kind asm.options (operands_of (tree_at self.old.store) asm.operands))
            (from_source self.old.file ptr ∷ operands_origins (origins_at self.old.store) asm.operands)) }
        ensures later { IfOk result (λ made. length self.old.store.exprs ≤ place_of made) }
        ensures newest { IfOk result (λ made. place_of made + 1 ≡ length self.new.store.exprs) }
        ensures builds { Builds self.old self.new 1 0 }
        ensures captures { SameCaptures self.old.store self.new.store }
        ensures longer { length self.old.store.exprs ≤ length self.new.store.exprs }
        ensures full { result ≡ Err LowerError.ArenaFull → Outgrows self.old.store 1 0 }
    {
        self.place(Expr::InlineAsm(asm), ptr)
    }

    /// Places a reference to each expression, in their order.
    ///
    /// # Errors
    ///
    /// The references that were placed before a refusal stay.
    pub fn references(&mut self, alloc: Global, ids: &[ExprId]) -> Result<ExprIds, LowerError>
        requires within { AllBelow (length self.old.store.exprs) ids.now }
        ensures placed { IfOk result (λ made. AllPlaced self.new.store made (reference_trees (tree_at self.old.store) ids.now) (reference_origins (origins_at self.old.store) ids.now)) }
        ensures within { IfOk result (λ made. AllBelow (length self.new.store.exprs) made) }
        ensures builds { Builds self.old self.new (length ids.now) 0 }
        ensures captures { SameCaptures self.old.store self.new.store }
        ensures longer { length self.old.store.exprs ≤ length self.new.store.exprs }
        ensures full { result ≡ Err LowerError.ArenaFull → Outgrows self.old.store (length ids.now) 0 }
    {
        let mut references = Vec::new(alloc);
        for id in ids {
            let reference = self.reference(*id)?;
            references.push(reference)?;
        }
        Ok(ExprIds::from_slice(alloc, references.as_slice())?)
    }

    /// Places a pattern and a binding of a fresh name, and returns `let #number = initializer;`.
    ///
    /// The pattern is the definition of the binding. The number is one that was used, or the next. A name that was
    /// used is bound anew, and what stands behind the `let` sees the new binding.
    ///
    /// # Errors
    ///
    /// Where the pattern is refused, the binding stays without a definition, and its name is used.
    pub fn let_fresh(&mut self, number: u32, initializer: ExprId) -> Result<Statement, LowerError>
        requires number_free { number ≤ self.old.fresh }
        requires within { place_of initializer < length self.old.store.exprs }
        ensures is { IfOk result (λ made. IsLet self.new.store made (Name.Fresh number) (tree_at self.old.store initializer) (origins_at self.old.store initializer)) }
        ensures within { IfOk result (λ made. StatementIn self.new.store made) }
        ensures fresh { OnOk result (self.new.fresh ≡ max self.old.fresh (number + 1)) }
        ensures builds { Builds self.old self.new 0 1 }
        ensures captures { SameCaptures self.old.store self.new.store }
        ensures longer { length self.old.store.exprs ≤ length self.new.store.exprs }
        ensures full { result ≡ Err LowerError.ArenaFull → Outgrows self.old.store 0 1 }
    {
        let binding = self.store.alloc_binding(Name::Fresh(number))?;
        self.fresh = self.fresh.max(number + 1);
        let pat = self.store.alloc_pat(Pat::Bind(binding))?;
        self.store.add_definition_to_binding(binding, pat);
        Ok(Statement::Let { pat, initializer })
    }

    /// Places a path of a name that a format call captures, with its pointer and its place in the template, where it
    /// has them.
    ///
    /// # Errors
    ///
    /// Where no memory is left for the place, the path may stay, and has none.
    pub fn capture(
        &mut self,
        name: Name,
        ptr: Option<AstPtr>,
        source: Option<CaptureSource>,
    ) -> Result<ExprId, LowerError>
        ensures placed { IfOk result (λ made. Placed self.new.store made (Path name) (capture_origin self.old.file ptr source ∷ [])) }
        ensures later { IfOk result (λ made. length self.old.store.exprs ≤ place_of made) }
        ensures newest { IfOk result (λ made. place_of made + 1 ≡ length self.new.store.exprs) }
        ensures builds { Builds self.old self.new 1 0 }
        ensures captures { SameCaptures self.old.store self.new.store }
        ensures longer { length self.old.store.exprs ≤ length self.new.store.exprs }
        ensures full { result ≡ Err LowerError.ArenaFull → Outgrows self.old.store 1 0 }
    {
        match source {
            Some(source) => self.captured_path(name, ptr, source),
            None => self.path(name, ptr),
        }
    }

    /// Enters what a format call captures at its code: for each use the bytes of the template that are the name, and
    /// the name.
    ///
    /// # Errors
    ///
    /// The builder is then as it was.
    pub fn note_captures(
        &mut self,
        code: ExprId,
        usages: Items<(TextRange, Name)>,
    ) -> Result<(), LowerError>
        requires within { place_of code < length self.old.store.exprs }
        ensures notes { OnOk result (Notes self.old code usages self.new) }
        ensures err { OnErr result (self.new ≡ self.old) }
        ensures memory { result ≢ Err LowerError.ArenaFull }
    {
        self.store.format_args_to_captures.insert(code, usages)?;
        Ok(())
    }

    /// Enters which operands the templates of inline assembly put at its code: for each template, and each placeholder
    /// there that denotes an operand, the bytes that say which, and the place of the operand among all, from 0.
    ///
    /// # Errors
    ///
    /// The builder is then as it was.
    pub fn note_mapping(&mut self, code: ExprId, rows: Items<AsmRow>) -> Result<(), LowerError>
        requires within { place_of code < length self.old.store.exprs }
        ensures notes { OnOk result (NotesMapping self.old code rows self.new) }
        ensures err { OnErr result (self.new ≡ self.old) }
        ensures memory { result ≢ Err LowerError.ArenaFull }
    {
        self.store.asm_to_captures.insert(code, rows)?;
        Ok(())
    }

    // A path of a name with its place in the template.
    fn captured_path(
        &mut self,
        name: Name,
        ptr: Option<AstPtr>,
        source: CaptureSource,
    ) -> Result<ExprId, LowerError>
        ensures placed { IfOk result (λ made. Placed self.new.store made (Path name) (capture_origin self.old.file ptr (Some source) ∷ [])) }
        ensures later { IfOk result (λ made. length self.old.store.exprs ≤ place_of made) }
        ensures newest { IfOk result (λ made. place_of made + 1 ≡ length self.new.store.exprs) }
        ensures builds { Builds self.old self.new 1 0 }
        ensures captures { SameCaptures self.old.store self.new.store }
        ensures longer { length self.old.store.exprs ≤ length self.new.store.exprs }
        ensures full { result ≡ Err LowerError.ArenaFull → Outgrows self.old.store 1 0 }
    {
        let id = self.path(name, ptr)?;
        self.enter_capture(id, source)?;
        Ok(id)
    }

    // Enters the place in a template of an expression.
    fn enter_capture(&mut self, id: ExprId, source: CaptureSource) -> Result<(), LowerError>
        requires within { place_of id < length self.old.store.exprs }
        ensures enters { OnOk result (EntersCapture self.old id source self.new) }
        ensures err { OnErr result (self.new ≡ self.old) }
        ensures memory { result ≢ Err LowerError.ArenaFull }
    {
        let source = InFile {
            file_id: self.file,
            value: source,
        };
        self.store.implicit_capture_to_source.insert(id, source)?;
        Ok(())
    }

    // Places an expression that stands nowhere in the source.
    fn place_bare(&mut self, expr: Expr) -> Result<ExprId, LowerError>
        requires within { PartsIn self.old.store expr }
        ensures placed { IfOk result (λ made. Placed self.new.store made (tree_over self.old.store expr) (bare ∷ origins_over self.old.store expr)) }
        ensures later { IfOk result (λ made. length self.old.store.exprs ≤ place_of made) }
        ensures newest { IfOk result (λ made. place_of made + 1 ≡ length self.new.store.exprs) }
        ensures builds { Builds self.old self.new 1 0 }
        ensures captures { SameCaptures self.old.store self.new.store }
        ensures longer { length self.old.store.exprs ≤ length self.new.store.exprs }
        ensures full { result ≡ Err LowerError.ArenaFull → Outgrows self.old.store 1 0 }
    {
        let id = self.store.alloc_expr_desugared(expr)?;
        Ok(id)
    }

    // Places an expression that stands at a pointer.
    fn place_at(&mut self, expr: Expr, ptr: AstPtr) -> Result<ExprId, LowerError>
        requires within { PartsIn self.old.store expr }
        ensures placed { IfOk result (λ made. Placed self.new.store made (tree_over self.old.store expr) (from_source self.old.file (Some ptr) ∷ origins_over self.old.store expr)) }
        ensures later { IfOk result (λ made. length self.old.store.exprs ≤ place_of made) }
        ensures newest { IfOk result (λ made. place_of made + 1 ≡ length self.new.store.exprs) }
        ensures builds { Builds self.old self.new 1 0 }
        ensures captures { SameCaptures self.old.store self.new.store }
        ensures longer { length self.old.store.exprs ≤ length self.new.store.exprs }
        ensures full { result ≡ Err LowerError.ArenaFull → Outgrows self.old.store 1 0 }
    {
        let source = InFile {
            file_id: self.file,
            value: ptr,
        };
        let id = self.store.alloc_expr(expr, source)?;
        Ok(id)
    }

    // Places an expression, at a pointer where there is one.
    fn place(&mut self, expr: Expr, ptr: Option<AstPtr>) -> Result<ExprId, LowerError>
        requires within { PartsIn self.old.store expr }
        ensures placed { IfOk result (λ made. Placed self.new.store made (tree_over self.old.store expr) (from_source self.old.file ptr ∷ origins_over self.old.store expr)) }
        ensures later { IfOk result (λ made. length self.old.store.exprs ≤ place_of made) }
        ensures newest { IfOk result (λ made. place_of made + 1 ≡ length self.new.store.exprs) }
        ensures builds { Builds self.old self.new 1 0 }
        ensures captures { SameCaptures self.old.store self.new.store }
        ensures longer { length self.old.store.exprs ≤ length self.new.store.exprs }
        ensures full { result ≡ Err LowerError.ArenaFull → Outgrows self.old.store 1 0 }
    {
        match ptr {
            Some(ptr) => self.place_at(expr, ptr),
            None => self.place_bare(expr),
        }
    }
}

// Whether a language item is there.
fn has_item(items: LangItems, item: LangItem) -> bool
    ensures { result ≡ has_item items item }
{
    match item {
        LangItem::FormatArguments => items.format_arguments,
        LangItem::FormatArgument => items.format_argument,
    }
}
