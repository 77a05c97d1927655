//! The code of `format_args!(..)`: from a template over placed arguments to the expressions that it is lowered to.

ghost use Rattle.std.specs.Prelude.{◌≡◌, ◌≢◌, max, List, ◌+◌, ◌*◌, ◌<◌, ◌≤◌, [], ◌∷◌, ◌++◌, length, IfOk, OnOk};
ghost use Rattle.sym_core.specs.declared.name.Name.{Name};
ghost use Rattle.hir_store.specs.Tree.{Tree, Tuple, Array, Field, Path, Empty};
ghost use Rattle.hir_store.specs.Unfolding.{place_of, tree_at};
ghost use Rattle.hir_store.specs.PartsBelow.{AllBelow};
ghost use Rattle.hir_build.specs.Origins.{Origin, bare, origins_at};
ghost use Rattle.hir_build.specs.Placed.{Placed, AllPlaced, IsLet};
ghost use Rattle.hir_build.specs.Building.{Builds, SameCaptures, Outgrows};
ghost use Rattle.template_bytes.specs.Canonical.{canonical_pieces};
ghost use Rattle.template_bytes.specs.Pairs.{pairs_of};
ghost use Rattle.template_bytes.specs.Spelling.{IsCanonical};
ghost use Rattle.template_bytes.specs.ShownPairs.{shown_use, shown_pair, shown_pairs};
ghost use Rattle.format_code.specs.Code.{has_placeholder, text_of, function_of, field_number, element, elements, references, new_code, from_str_code};
ghost use Rattle.hir_lower.specs.FormatOrigins.{syntax_of, element_origins, elements_origins, tuple_origins, array_origins, new_origins, from_str_origins};
ghost use Rattle.hir_lower.specs.FormatArgs.{exprs_of, syntaxes_of, trees_of_args, origins_of_args, fresh_with, fresh_behind, IsCodeOf};
ghost use Rattle.hir_lower.specs.FormatParts.{call_origin, tree_behind, origins_behind, expr_statements, new_call, AreLets, block_tree, block_origins, template_tree, template_origins};

use hir_build::{Builder, LowerError};
use hir_fmt::{FormatArgs, FormatArgsPiece, FormatArgument, FormatTrait};
use hir_store::{ExprId, ExprIds, LangFn, LangItem, Literal, Statement};
use sqlite_items::{Boxed, Items};
use std::alloc::{AllocError, Global};
use sym_core::{AstPtr, Name, Symbol};
use template_bytes::{EncodeError, EncodedTemplate, Pair, Usage, encode};

// Where the code of a call goes: the memory for its lists, and the pointer of the call.
#[derive(Clone, Copy)]
struct Site {
    alloc: Global,
    ptr: AstPtr,
}

/// Builds the code of a format call from its template, its arguments and its orphans, which are all placed.
///
/// A template without placeholders becomes its text, behind all arguments:
///
/// ```text
/// { ARG; .. Arguments::from_str(TEXT) }
/// ```
///
/// Any other one becomes its bytes, over the arguments of its pairs:
///
/// ```text
/// {
///     let #n = (&ARG, ..);
///     let #n = [Argument::FUNCTION(#n.PLACE), ..];
///     ORPHAN; ..
///     unsafe { Arguments::new(BYTES, &#n) }
/// }
/// ```
///
/// Without arguments `[]` stands for `#n`, and where nothing stands in front of the tail there is no block.
///
/// # Errors
///
/// Returns an error if there is no memory, or if an arena of the store is full.
pub(crate) fn build_format_args(
    builder: &mut Builder,
    alloc: Global,
    ptr: AstPtr,
    fmt: &FormatArgs,
) -> Result<ExprId, LowerError>
    requires arguments { AllBelow (length builder.old.store.exprs) (exprs_of fmt.now.arguments.arguments) }
    requires orphans { AllBelow (length builder.old.store.exprs) fmt.now.orphans }
    ensures code { IfOk result (λ made. IsCodeOf builder.old builder.new.store ptr fmt.now made) }
    ensures later { IfOk result (λ made. length builder.old.store.exprs ≤ place_of made) }
    ensures newest { IfOk result (λ made. place_of made + 1 ≡ length builder.new.store.exprs) }
    ensures builds { Builds builder.old builder.new (length fmt.now.arguments.arguments + 4 * length (pairs_of (canonical_pieces fmt.now.template)) + 9) 2 }
    ensures captures { SameCaptures builder.old.store builder.new.store }
    ensures fresh { OnOk result (builder.new.fresh ≡ fresh_behind builder.old.fresh fmt.now) }
    ensures full { result ≡ Err LowerError.ArenaFull → Outgrows builder.old.store (length fmt.now.arguments.arguments + 4 * length (pairs_of (canonical_pieces fmt.now.template)) + 9) 2 }
{
    let site = Site { alloc, ptr };
    let template = fmt.template.as_slice();
    if has_placeholder(template) {
        let encoded = encode_template(alloc, template)?;
        build_template(builder, site, fmt, encoded)
    } else {
        let args = exprs_of(alloc, fmt.arguments.arguments.as_slice())?;
        let text = text_of(alloc, template)?;
        build_text(builder, site, args.as_slice(), text)
    }
}

// Whether a template has a placeholder. One that has none is a text.
fn has_placeholder(template: &[FormatArgsPiece]) -> bool
    ensures { result ≡ has_placeholder (canonical_pieces template.now) }
{
    for piece in template {
        match piece {
            FormatArgsPiece::Literal(_) => {}
            FormatArgsPiece::Placeholder(_) => return true,
        }
    }
    false
}

// The text of a template without placeholders: its literals, one behind the other.
fn text_of(alloc: Global, template: &[FormatArgsPiece]) -> Result<Symbol, LowerError>
    ensures text { IfOk result (λ text. text ≡ text_of (canonical_pieces template.now)) }
    ensures memory { result ≢ Err LowerError.ArenaFull }
{
    let mut text = String::new(alloc);
    for piece in template {
        match piece {
            FormatArgsPiece::Literal(literal) => text.push_str(literal.as_str())?,
            FormatArgsPiece::Placeholder(_) => {}
        }
    }
    Ok(Symbol::new(alloc, text.as_str())?)
}

// The expressions of arguments.
fn exprs_of(alloc: Global, args: &[FormatArgument]) -> Result<Vec<ExprId>, AllocError>
    ensures { IfOk result (λ exprs. exprs.items ≡ exprs_of args.now) }
{
    let mut exprs = Vec::new(alloc);
    for arg in args {
        exprs.push(arg.expr)?;
    }
    Ok(exprs)
}

// Builds `Arguments::from_str(TEXT)`, behind all arguments as statements.
fn build_text(
    builder: &mut Builder,
    site: Site,
    args: &[ExprId],
    text: Symbol,
) -> Result<ExprId, LowerError>
    requires within { AllBelow (length builder.old.store.exprs) args.now }
    ensures placed { IfOk result (λ made. Placed builder.new.store made (tree_behind builder.old args.now (from_str_code builder.old.items text)) (origins_behind builder.old site.ptr args.now (from_str_origins (call_origin builder.old site.ptr)))) }
    ensures later { IfOk result (λ made. length builder.old.store.exprs ≤ place_of made) }
    ensures newest { IfOk result (λ made. place_of made + 1 ≡ length builder.new.store.exprs) }
    ensures builds { Builds builder.old builder.new 4 0 }
    ensures captures { SameCaptures builder.old.store builder.new.store }
    ensures full { result ≡ Err LowerError.ArenaFull → Outgrows builder.old.store 4 0 }
{
    // `Arguments::from_str(TEXT)`
    let from_str = build_from_str(builder, site, text)?;
    // `{ ARG; .. Arguments::from_str(TEXT) }`
    build_behind(builder, site, args, from_str)
}

// Builds `Arguments::from_str(TEXT)`.
fn build_from_str(builder: &mut Builder, site: Site, text: Symbol) -> Result<ExprId, LowerError>
    ensures placed { IfOk result (λ made. Placed builder.new.store made (from_str_code builder.old.items text) (from_str_origins (call_origin builder.old site.ptr))) }
    ensures later { IfOk result (λ made. length builder.old.store.exprs ≤ place_of made) }
    ensures newest { IfOk result (λ made. place_of made + 1 ≡ length builder.new.store.exprs) }
    ensures builds { Builds builder.old builder.new 3 0 }
    ensures captures { SameCaptures builder.old.store builder.new.store }
    ensures full { result ≡ Err LowerError.ArenaFull → Outgrows builder.old.store 3 0 }
{
    let from_str = builder.callee(LangItem::FormatArguments, LangFn::FromStr, None)?;
    let text = builder.literal(Literal::String(text), None)?;
    let args = ExprIds::from_slice(site.alloc, &[text])?;
    builder.call(from_str, args, Some(site.ptr))
}

// Encodes a template. Where it has more pairs than places, the arena has no room for their elements either.
fn encode_template(
    alloc: Global,
    template: &[FormatArgsPiece],
) -> Result<EncodedTemplate, LowerError>
    ensures bytes { IfOk result (λ encoded. IsCanonical encoded.bytes.items (canonical_pieces template.now)) }
    ensures pairs { IfOk result (λ encoded. shown_pairs encoded.pairs.keys ≡ pairs_of (canonical_pieces template.now)) }
    ensures full { result ≡ Err LowerError.ArenaFull → 4_294_967_296 < length (pairs_of (canonical_pieces template.now)) }
{
    match encode(alloc, template) {
        Ok(encoded) => Ok(encoded),
        Err(EncodeError::Memory(error)) => Err(LowerError::Memory(error)),
        Err(EncodeError::TooManyPairs) => Err(LowerError::ArenaFull),
    }
}

// Builds the code of a template that is encoded.
fn build_template(
    builder: &mut Builder,
    site: Site,
    fmt: &FormatArgs,
    encoded: EncodedTemplate,
) -> Result<ExprId, LowerError>
    requires arguments { AllBelow (length builder.old.store.exprs) (exprs_of fmt.now.arguments.arguments) }
    requires orphans { AllBelow (length builder.old.store.exprs) fmt.now.orphans }
    ensures placed { IfOk result (λ made. Placed builder.new.store made (template_tree builder.old fmt.now encoded.bytes.items (shown_pairs encoded.pairs.keys)) (template_origins builder.old site.ptr fmt.now (shown_pairs encoded.pairs.keys))) }
    ensures later { IfOk result (λ made. length builder.old.store.exprs ≤ place_of made) }
    ensures newest { IfOk result (λ made. place_of made + 1 ≡ length builder.new.store.exprs) }
    ensures builds { Builds builder.old builder.new (length fmt.now.arguments.arguments + 4 * length encoded.pairs.keys + 9) 2 }
    ensures captures { SameCaptures builder.old.store builder.new.store }
    ensures fresh { OnOk result (builder.new.fresh ≡ fresh_with builder.old.fresh fmt.now.arguments.arguments) }
    ensures full { result ≡ Err LowerError.ArenaFull → Outgrows builder.old.store (length fmt.now.arguments.arguments + 4 * length encoded.pairs.keys + 9) 2 }
{
    let bytes = Items::from_vec(encoded.bytes);
    if fmt.arguments.arguments.is_empty() {
        build_without_arguments(builder, site, bytes, fmt.orphans.as_slice())
    } else {
        build_with_arguments(builder, site, fmt, bytes, encoded.pairs.as_slice())
    }
}

// Builds `unsafe { Arguments::new(BYTES, &[]) }`, behind the orphans.
fn build_without_arguments(
    builder: &mut Builder,
    site: Site,
    bytes: Items<u8>,
    orphans: &[ExprId],
) -> Result<ExprId, LowerError>
    requires orphans { AllBelow (length builder.old.store.exprs) orphans.now }
    ensures placed { IfOk result (λ made. Placed builder.new.store made (tree_behind builder.old orphans.now (new_code builder.old.items bytes (Array Empty))) (origins_behind builder.old site.ptr orphans.now (new_origins (call_origin builder.old site.ptr) (bare ∷ [])))) }
    ensures later { IfOk result (λ made. length builder.old.store.exprs ≤ place_of made) }
    ensures newest { IfOk result (λ made. place_of made + 1 ≡ length builder.new.store.exprs) }
    ensures builds { Builds builder.old builder.new 7 0 }
    ensures captures { SameCaptures builder.old.store builder.new.store }
    ensures full { result ≡ Err LowerError.ArenaFull → Outgrows builder.old.store 7 0 }
{
    // `[]`
    let list = builder.array(ExprIds::new())?;
    // `unsafe { Arguments::new(BYTES, &[]) }`
    let new = build_new(builder, site, bytes, list)?;
    // `{ ORPHAN; .. unsafe { Arguments::new(BYTES, &[]) } }`
    build_behind(builder, site, orphans, new)
}

// Builds `unsafe { Arguments::new(BYTES, &#n) }`, behind the `let`s of `#n` and the orphans.
fn build_with_arguments(
    builder: &mut Builder,
    site: Site,
    fmt: &FormatArgs,
    bytes: Items<u8>,
    pairs: &[Pair],
) -> Result<ExprId, LowerError>
    requires arguments { AllBelow (length builder.old.store.exprs) (exprs_of fmt.now.arguments.arguments) }
    requires orphans { AllBelow (length builder.old.store.exprs) fmt.now.orphans }
    ensures placed { IfOk result (λ made. Placed builder.new.store made (block_tree builder.old fmt.now bytes (shown_pairs pairs.now)) (block_origins builder.old site.ptr fmt.now (shown_pairs pairs.now))) }
    ensures later { IfOk result (λ made. length builder.old.store.exprs ≤ place_of made) }
    ensures newest { IfOk result (λ made. place_of made + 1 ≡ length builder.new.store.exprs) }
    ensures builds { Builds builder.old builder.new (length fmt.now.arguments.arguments + 4 * length pairs.now + 9) 2 }
    ensures captures { SameCaptures builder.old.store builder.new.store }
    ensures fresh { OnOk result (builder.new.fresh ≡ builder.old.fresh + 1) }
    ensures full { result ≡ Err LowerError.ArenaFull → Outgrows builder.old.store (length fmt.now.arguments.arguments + 4 * length pairs.now + 9) 2 }
{
    let number = builder.next_fresh();
    let args = fmt.arguments.arguments.as_slice();
    // `let #n = (&ARG, ..);`
    // `let #n = [Argument::FUNCTION(#n.PLACE), ..];`
    let mut statements = build_lets(builder, site.alloc, number, args, pairs)?;
    // `unsafe { Arguments::new(BYTES, &#n) }`
    let new = build_named(builder, site, bytes, number)?;
    // `{ let #n = ..; let #n = ..; ORPHAN; .. unsafe { Arguments::new(BYTES, &#n) } }`
    push_statements(&mut statements, fmt.orphans.as_slice())?;
    builder.block(Items::from_vec(statements), new, false, Some(site.ptr))
}

// Builds the two `let`s of a call with arguments.
fn build_lets(
    builder: &mut Builder,
    alloc: Global,
    number: u32,
    args: &[FormatArgument],
    pairs: &[Pair],
) -> Result<Vec<Statement>, LowerError>
    requires number { number ≡ builder.old.fresh }
    requires within { AllBelow (length builder.old.store.exprs) (exprs_of args.now) }
    ensures are { IfOk result (λ made. AreLets builder.old builder.new.store made.items number args.now (shown_pairs pairs.now)) }
    ensures fresh { OnOk result (builder.new.fresh ≡ number + 1) }
    ensures builds { Builds builder.old builder.new (length args.now + 4 * length pairs.now + 2) 2 }
    ensures captures { SameCaptures builder.old.store builder.new.store }
    ensures full { result ≡ Err LowerError.ArenaFull → Outgrows builder.old.store (length args.now + 4 * length pairs.now + 2) 2 }
{
    // `let #n = (&ARG, ..);`
    let tuple = build_tuple(builder, alloc, number, args)?;
    // `let #n = [Argument::FUNCTION(#n.PLACE), ..];`
    let array = build_array(builder, alloc, number, args, pairs)?;
    Ok(Vec::from_slice(alloc, &[tuple, array])?)
}

// Builds `let #n = (&ARG, ..);`.
fn build_tuple(
    builder: &mut Builder,
    alloc: Global,
    number: u32,
    args: &[FormatArgument],
) -> Result<Statement, LowerError>
    requires number { number ≤ builder.old.fresh }
    requires within { AllBelow (length builder.old.store.exprs) (exprs_of args.now) }
    ensures is { IfOk result (λ made. IsLet builder.new.store made (Name.Fresh number) (Tuple (references (trees_of_args builder.old args.now))) (tuple_origins (origins_of_args builder.old args.now))) }
    ensures fresh { OnOk result (builder.new.fresh ≡ max builder.old.fresh (number + 1)) }
    ensures builds { Builds builder.old builder.new (length args.now + 1) 1 }
    ensures captures { SameCaptures builder.old.store builder.new.store }
    ensures full { result ≡ Err LowerError.ArenaFull → Outgrows builder.old.store (length args.now + 1) 1 }
{
    // `(&ARG, ..)`
    let exprs = exprs_of(alloc, args)?;
    let references = builder.references(alloc, exprs.as_slice())?;
    let tuple = builder.tuple(references)?;
    // `let #n = (&ARG, ..);`
    builder.let_fresh(number, tuple)
}

// Builds `let #n = [Argument::FUNCTION(#n.PLACE), ..];`.
fn build_array(
    builder: &mut Builder,
    alloc: Global,
    number: u32,
    args: &[FormatArgument],
    pairs: &[Pair],
) -> Result<Statement, LowerError>
    requires number { number ≤ builder.old.fresh }
    ensures is { IfOk result (λ made. IsLet builder.new.store made (Name.Fresh number) (Array (elements builder.old.items number (shown_pairs pairs.now))) (array_origins builder.old.file builder.old.items (syntaxes_of args.now) (shown_pairs pairs.now))) }
    ensures fresh { OnOk result (builder.new.fresh ≡ max builder.old.fresh (number + 1)) }
    ensures builds { Builds builder.old builder.new (4 * length pairs.now + 1) 1 }
    ensures captures { SameCaptures builder.old.store builder.new.store }
    ensures full { result ≡ Err LowerError.ArenaFull → Outgrows builder.old.store (4 * length pairs.now + 1) 1 }
{
    // `[Argument::FUNCTION(#n.PLACE), ..]`
    let elements = build_elements(builder, alloc, number, args, pairs)?;
    let array = builder.array(elements)?;
    // `let #n = [Argument::FUNCTION(#n.PLACE), ..];`
    builder.let_fresh(number, array)
}

// Builds `Argument::FUNCTION(#n.PLACE)` for each pair, in order.
fn build_elements(
    builder: &mut Builder,
    alloc: Global,
    number: u32,
    args: &[FormatArgument],
    pairs: &[Pair],
) -> Result<ExprIds, LowerError>
    ensures placed { IfOk result (λ made. AllPlaced builder.new.store made (elements builder.old.items number (shown_pairs pairs.now)) (elements_origins builder.old.file builder.old.items (syntaxes_of args.now) (shown_pairs pairs.now))) }
    ensures builds { Builds builder.old builder.new (4 * length pairs.now) 0 }
    ensures captures { SameCaptures builder.old.store builder.new.store }
    ensures full { result ≡ Err LowerError.ArenaFull → Outgrows builder.old.store (4 * length pairs.now) 0 }
{
    let mut elements = Vec::new(alloc);
    for pair in pairs {
        let syntax = syntax_of(args, pair.argument);
        let element = build_element(builder, alloc, number, *pair, syntax)?;
        elements.push(element)?;
    }
    Ok(ExprIds::from_slice(alloc, elements.as_slice())?)
}

// Builds `Argument::FUNCTION(#n.PLACE)`. Trait errors of the argument show at the function, so it stands where the argument does.
fn build_element(
    builder: &mut Builder,
    alloc: Global,
    number: u32,
    pair: Pair,
    syntax: Option<AstPtr>,
) -> Result<ExprId, LowerError>
    ensures placed { IfOk result (λ made. Placed builder.new.store made (element builder.old.items number (shown_pair pair)) (element_origins builder.old.file builder.old.items syntax)) }
    ensures builds { Builds builder.old builder.new 4 0 }
    ensures captures { SameCaptures builder.old.store builder.new.store }
    ensures full { result ≡ Err LowerError.ArenaFull → Outgrows builder.old.store 4 0 }
{
    // `#n.PLACE`
    let field = build_field(builder, number, pair.argument)?;
    // `Argument::FUNCTION(#n.PLACE)`
    let function = function_of(pair.usage);
    let callee = builder.callee(LangItem::FormatArgument, function, syntax)?;
    let args = ExprIds::from_slice(alloc, &[field])?;
    builder.call(callee, args, None)
}

// Builds `#n.PLACE`.
fn build_field(
    builder: &mut Builder,
    number: u32,
    argument: Option<usize>,
) -> Result<ExprId, LowerError>
    ensures placed { IfOk result (λ made. Placed builder.new.store made (Field (Path (Name.Fresh number)) (Name.TupleField (field_number argument))) (bare ∷ bare ∷ [])) }
    ensures builds { Builds builder.old builder.new 2 0 }
    ensures captures { SameCaptures builder.old.store builder.new.store }
    ensures full { result ≡ Err LowerError.ArenaFull → Outgrows builder.old.store 2 0 }
{
    let tuple = builder.path(Name::fresh(number), None)?;
    builder.field(tuple, Name::tuple_field(field_number(argument)))
}

// The field of an argument, or one that no tuple has, for the unresolved argument.
fn field_number(argument: Option<usize>) -> usize
    ensures { result ≡ field_number argument }
{
    argument.unwrap_or(usize::MAX)
}

// Where the argument stands in the source. The unresolved argument stands nowhere.
fn syntax_of(args: &[FormatArgument], argument: Option<usize>) -> Option<AstPtr>
    ensures { result ≡ syntax_of (syntaxes_of args.now) argument }
{
    args.get(argument?)?.syntax
}

// The function of `Argument` that makes an argument for a use.
fn function_of(usage: Usage) -> LangFn
    ensures { result ≡ function_of (shown_use usage) }
{
    match usage {
        Usage::Trait(FormatTrait::Display) => LangFn::NewDisplay,
        Usage::Trait(FormatTrait::Debug) => LangFn::NewDebug,
        Usage::Trait(FormatTrait::LowerExp) => LangFn::NewLowerExp,
        Usage::Trait(FormatTrait::UpperExp) => LangFn::NewUpperExp,
        Usage::Trait(FormatTrait::Octal) => LangFn::NewOctal,
        Usage::Trait(FormatTrait::Pointer) => LangFn::NewPointer,
        Usage::Trait(FormatTrait::Binary) => LangFn::NewBinary,
        Usage::Trait(FormatTrait::LowerHex) => LangFn::NewLowerHex,
        Usage::Trait(FormatTrait::UpperHex) => LangFn::NewUpperHex,
        Usage::Count => LangFn::FromUsize,
    }
}

// Builds `unsafe { Arguments::new(BYTES, &#n) }`.
fn build_named(
    builder: &mut Builder,
    site: Site,
    bytes: Items<u8>,
    number: u32,
) -> Result<ExprId, LowerError>
    ensures placed { IfOk result (λ made. Placed builder.new.store made (new_code builder.old.items bytes (Path (Name.Fresh number))) (new_origins (call_origin builder.old site.ptr) (bare ∷ []))) }
    ensures builds { Builds builder.old builder.new 6 0 }
    ensures captures { SameCaptures builder.old.store builder.new.store }
    ensures full { result ≡ Err LowerError.ArenaFull → Outgrows builder.old.store 6 0 }
{
    let list = builder.path(Name::fresh(number), None)?;
    build_new(builder, site, bytes, list)
}

// Builds `unsafe { Arguments::new(BYTES, &LIST) }`.
fn build_new(
    builder: &mut Builder,
    site: Site,
    bytes: Items<u8>,
    list: ExprId,
) -> Result<ExprId, LowerError>
    requires within { place_of list < length builder.old.store.exprs }
    ensures placed { IfOk result (λ made. Placed builder.new.store made (new_code builder.old.items bytes (tree_at builder.old.store list)) (new_origins (call_origin builder.old site.ptr) (origins_at builder.old.store list))) }
    ensures later { IfOk result (λ made. length builder.old.store.exprs ≤ place_of made) }
    ensures newest { IfOk result (λ made. place_of made + 1 ≡ length builder.new.store.exprs) }
    ensures builds { Builds builder.old builder.new 5 0 }
    ensures captures { SameCaptures builder.old.store builder.new.store }
    ensures full { result ≡ Err LowerError.ArenaFull → Outgrows builder.old.store 5 0 }
{
    // `Arguments::new(BYTES, &LIST)`
    let call = build_new_call(builder, site.alloc, bytes, list)?;
    // `unsafe { Arguments::new(BYTES, &LIST) }`
    builder.block(Items::new(site.alloc), call, true, Some(site.ptr))
}

// Builds `Arguments::new(BYTES, &LIST)`.
fn build_new_call(
    builder: &mut Builder,
    alloc: Global,
    bytes: Items<u8>,
    list: ExprId,
) -> Result<ExprId, LowerError>
    requires within { place_of list < length builder.old.store.exprs }
    ensures placed { IfOk result (λ made. Placed builder.new.store made (new_call builder.old.items bytes (tree_at builder.old.store list)) (bare ∷ bare ∷ bare ∷ bare ∷ origins_at builder.old.store list)) }
    ensures builds { Builds builder.old builder.new 4 0 }
    ensures captures { SameCaptures builder.old.store builder.new.store }
    ensures full { result ≡ Err LowerError.ArenaFull → Outgrows builder.old.store 4 0 }
{
    let bytes = Boxed::new(alloc, bytes)?;
    let template = builder.literal(Literal::ByteString(bytes), None)?;
    let new = builder.callee(LangItem::FormatArguments, LangFn::New, None)?;
    let reference = builder.reference(list)?;
    let args = ExprIds::from_slice(alloc, &[template, reference])?;
    builder.call(new, args, None)
}

// Builds a block of expressions as statements and a tail, or nothing around the tail where there is no expression.
fn build_behind(
    builder: &mut Builder,
    site: Site,
    exprs: &[ExprId],
    tail: ExprId,
) -> Result<ExprId, LowerError>
    requires within { AllBelow (length builder.old.store.exprs) exprs.now }
    requires tail_within { place_of tail < length builder.old.store.exprs }
    ensures placed { IfOk result (λ made. (t : Tree) (origins : List Origin) → Placed builder.old.store tail t origins → Placed builder.new.store made (tree_behind builder.old exprs.now t) (origins_behind builder.old site.ptr exprs.now origins)) }
    ensures behind { IfOk result (λ made. place_of tail ≤ place_of made) }
    ensures newest { place_of tail + 1 ≡ length builder.old.store.exprs → IfOk result (λ made. place_of made + 1 ≡ length builder.new.store.exprs) }
    ensures builds { Builds builder.old builder.new 1 0 }
    ensures captures { SameCaptures builder.old.store builder.new.store }
    ensures full { result ≡ Err LowerError.ArenaFull → Outgrows builder.old.store 1 0 }
{
    if exprs.is_empty() {
        return Ok(tail);
    }
    let mut statements = Vec::new(site.alloc);
    push_statements(&mut statements, exprs)?;
    builder.block(Items::from_vec(statements), tail, false, Some(site.ptr))
}

// Puts each expression as a statement behind those so far.
fn push_statements(statements: &mut Vec<Statement>, exprs: &[ExprId]) -> Result<(), AllocError>
    ensures { OnOk result (statements.new.items ≡ statements.old.items ++ expr_statements exprs.now) }
{
    for expr in exprs {
        statements.push(Statement::Expr(*expr))?;
    }
    Ok(())
}
