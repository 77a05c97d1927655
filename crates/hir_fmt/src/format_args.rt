ghost use Rattle.std.specs.Prelude.{◌≡◌, IfOk, None, false, option_copied};

use either::Either;
use hir_store::ExprId;
use sqlite_items::Items;
use std::alloc::{AllocError, Global};
use sym_core::{AstPtr, Name, Symbol, TextRange};

/// A format call: the template that its text becomes, and the arguments that the template names.
#[derive(Debug, Drop)]
pub struct FormatArgs {
    /// The literals and placeholders of the text, in their order.
    pub template: Items<FormatArgsPiece>,
    /// The arguments that the template names.
    pub arguments: FormatArguments,
    /// The written arguments that the template does not name.
    pub orphans: Items<ExprId>,
}

/// The arguments of a format call, in the order in which they were added.
#[derive(Debug, Drop)]
pub struct FormatArguments {
    /// All of them: first the written ones, then those that the text captures.
    pub arguments: Items<FormatArgument>,
    /// How many stand in front of the first that bears a name.
    pub num_unnamed_args: usize,
    /// How many are written.
    pub num_explicit_args: usize,
    /// The name of each that bears one, with its place.
    pub names: Items<(Name, usize)>,
}

/// A part of a template.
#[derive(Clone, PartialEq, Eq, Debug, Drop)]
pub enum FormatArgsPiece {
    /// Text that is written as it is.
    Literal(Symbol),
    /// What an argument is written in place of.
    Placeholder(FormatPlaceholder),
}

/// A placeholder, `{…}`.
#[derive(Clone, PartialEq, Eq, Debug, Drop)]
pub struct FormatPlaceholder {
    /// The argument that is written.
    pub argument: FormatArgPosition,
    /// The bytes of the literal that are the placeholder.
    pub span: Option<TextRange>,
    /// The trait that writes it: `{}`, `{:?}`, `{:x}` and so on.
    pub format_trait: FormatTrait,
    /// How it is written: `{}`, `{:.5}`, `{:-^20}` and so on.
    pub format_options: FormatOptions,
}

/// A reference to an argument.
#[derive(Clone, PartialEq, Eq, Debug, Drop)]
pub struct FormatArgPosition {
    /// The place of the argument; or the number or the name that no argument has.
    pub index: Result<usize, Either<usize, Name>>,
    /// How the reference is spelled.
    pub kind: FormatArgPositionKind,
    /// The bytes of the literal that are the number or the name.
    pub span: Option<TextRange>,
}

/// How a reference to an argument is spelled.
#[derive(Clone, Copy, PartialEq, Eq, Debug)]
pub enum FormatArgPositionKind {
    /// Not at all, or by a star: `{}`, `{:.*}`.
    Implicit,
    /// By a number: `{1}`, `{:1$}`, `{:.1$}`.
    Number,
    /// By a name: `{a}`, `{:a$}`, `{:.a$}`.
    Named,
}

/// The trait of `std::fmt` that writes an argument.
#[derive(Clone, Copy, PartialEq, Eq, Hash, Debug)]
pub enum FormatTrait {
    /// `{}`
    Display,
    /// `{:?}`
    Debug,
    /// `{:e}`
    LowerExp,
    /// `{:E}`
    UpperExp,
    /// `{:o}`
    Octal,
    /// `{:p}`
    Pointer,
    /// `{:b}`
    Binary,
    /// `{:x}`
    LowerHex,
    /// `{:X}`
    UpperHex,
}

/// How an argument is written.
///
/// ```
/// let options = FormatOptions::default();
/// assert!(options.width.is_none() && options.fill.is_none());
/// assert!(!options.alternate && !options.zero_pad);
/// ```
#[derive(Default, PartialEq, Eq, Debug, Drop)]
pub struct FormatOptions {
    /// The width: `{:5}`, `{:width$}`.
    pub width: Option<FormatCount>,
    /// The precision: `{:.5}`, `{:.precision$}`.
    pub precision: Option<FormatCount>,
    /// The alignment: `{:<}`, `{:^}`, `{:>}`.
    pub alignment: Option<FormatAlignment>,
    /// The character that fills up to the width: the `.` of `{:.>10}`.
    pub fill: Option<char>,
    /// The sign flag: `{:+}`, `{:-}`.
    pub sign: Option<FormatSign>,
    /// Whether there is a `#`: `{:#}`.
    pub alternate: bool,
    /// Whether there is a `0` in front of the width: `{:02x}`.
    pub zero_pad: bool,
    /// The `x` or `X` in front of a `?`: `{:x?}`, `{:X?}`.
    pub debug_hex: Option<FormatDebugHex>,
}

/// A sign flag.
#[derive(Clone, Copy, PartialEq, Eq, Debug)]
pub enum FormatSign {
    /// `{:+}`
    Plus,
    /// `{:-}`
    Minus,
}

/// Which hexadecimal digits `Debug` writes.
#[derive(Clone, Copy, PartialEq, Eq, Debug)]
pub enum FormatDebugHex {
    /// `{:x?}`
    Lower,
    /// `{:X?}`
    Upper,
}

/// Where an argument stands in its width.
#[derive(Clone, Copy, PartialEq, Eq, Debug)]
pub enum FormatAlignment {
    /// `{:<}`
    Left,
    /// `{:>}`
    Right,
    /// `{:^}`
    Center,
}

/// A width or a precision.
#[derive(Clone, PartialEq, Eq, Debug, Drop)]
pub enum FormatCount {
    /// Written as a number: `{:5}`, `{:.5}`.
    Literal(u16),
    /// The value of an argument: `{:a$}`, `{:.5$}`, `{:.*}`.
    Argument(FormatArgPosition),
}

/// An argument of a format call.
#[derive(Clone, PartialEq, Eq, Debug, Drop)]
pub struct FormatArgument {
    /// How the call brings it, with the name that it bears.
    pub kind: FormatArgumentKind,
    /// The expression that it is lowered to.
    pub expr: ExprId,
    /// Where it stands in the source.
    pub syntax: Option<AstPtr>,
}

/// How a format call brings an argument.
///
/// ```
/// let named = FormatArgumentKind::Named(Name::new(alloc, "w")?);
/// assert_eq!(named.ident(), Some(&Name::new(alloc, "w")?));
/// assert!(FormatArgumentKind::Normal.ident().is_none());
/// assert!(named.try_clone(alloc)? == named);
/// ```
#[derive(Clone, PartialEq, Eq, Debug, Drop)]
pub enum FormatArgumentKind {
    /// Written without a name: `format_args!(.., arg)`.
    Normal,
    /// Written with a name: `format_args!(.., name = arg)`.
    Named(Name),
    /// Named by the text alone: `format_args!(".. {name} ..")`.
    Captured(Name),
}

impl FormatArgs {
    /// Makes a copy.
    ///
    /// ```
    /// assert!(call.try_clone(alloc)? == call);
    /// assert!(call.arguments.try_clone(alloc)? == call.arguments);
    /// assert!(piece.try_clone(alloc)? == piece);                       // and so of every part
    /// ```
    ///
    /// # Errors
    ///
    /// Returns an error if there is no memory.
    pub fn try_clone(&self, alloc: Global) -> Result<FormatArgs, AllocError>
        ensures { IfOk result (λ copy. copy ≡ self.now) }
    {
        let template = Vec::from_clones(alloc, self.template.as_slice())?;
        let arguments = self.arguments.try_clone(alloc)?;
        let orphans = Items::from_slice(alloc, self.orphans.as_slice())?;
        Ok(FormatArgs {
            template: Items::from_vec(template),
            arguments,
            orphans,
        })
    }
}

impl FormatArguments {
    /// Makes a copy, as the example of [`FormatArgs::try_clone`] shows.
    ///
    /// # Errors
    ///
    /// Returns an error if there is no memory.
    pub fn try_clone(&self, alloc: Global) -> Result<FormatArguments, AllocError>
        ensures { IfOk result (λ copy. copy ≡ self.now) }
    {
        let arguments = Vec::from_clones(alloc, self.arguments.as_slice())?;
        let names = Vec::from_clones(alloc, self.names.as_slice())?;
        Ok(FormatArguments {
            arguments: Items::from_vec(arguments),
            num_unnamed_args: self.num_unnamed_args,
            num_explicit_args: self.num_explicit_args,
            names: Items::from_vec(names),
        })
    }
}

impl FormatArgsPiece {
    /// Makes a copy, as the example of [`FormatArgs::try_clone`] shows.
    ///
    /// # Errors
    ///
    /// Returns an error if there is no memory.
    pub fn try_clone(&self, _alloc: Global) -> Result<FormatArgsPiece, AllocError>
        ensures { IfOk result (λ copy. copy ≡ self.now) }
    {
        Ok(self.clone()?)
    }
}

impl FormatPlaceholder {
    /// Makes a copy, as the example of [`FormatArgs::try_clone`] shows.
    ///
    /// # Errors
    ///
    /// Returns an error if there is no memory.
    pub fn try_clone(&self, _alloc: Global) -> Result<FormatPlaceholder, AllocError>
        ensures { IfOk result (λ copy. copy ≡ self.now) }
    {
        Ok(self.clone()?)
    }
}

impl FormatArgPosition {
    /// Makes a copy, as the example of [`FormatArgs::try_clone`] shows.
    ///
    /// # Errors
    ///
    /// Returns an error if there is no memory.
    pub fn try_clone(&self, _alloc: Global) -> Result<FormatArgPosition, AllocError>
        ensures { IfOk result (λ copy. copy ≡ self.now) }
    {
        Ok(self.clone()?)
    }
}

impl FormatOptions {
    /// Makes a copy, as the example of [`FormatArgs::try_clone`] shows.
    ///
    /// # Errors
    ///
    /// Returns an error if there is no memory.
    pub fn try_clone(&self, _alloc: Global) -> Result<FormatOptions, AllocError>
        ensures { IfOk result (λ copy. copy ≡ self.now) }
    {
        Ok(self.clone()?)
    }
}

impl Clone for FormatOptions {
    ghost is_clone = { λ options copy. copy ≡ options };

    fn clone(&self) -> Result<Self, AllocError> {
        let width = self.width.clone()?;
        let precision = self.precision.clone()?;
        Ok(FormatOptions {
            width,
            precision,
            alignment: self.alignment,
            fill: self.fill,
            sign: self.sign,
            alternate: self.alternate,
            zero_pad: self.zero_pad,
            debug_hex: self.debug_hex,
        })
    }
}

impl FormatCount {
    /// Makes a copy, as the example of [`FormatArgs::try_clone`] shows.
    ///
    /// # Errors
    ///
    /// Returns an error if there is no memory.
    pub fn try_clone(&self, _alloc: Global) -> Result<FormatCount, AllocError>
        ensures { IfOk result (λ copy. copy ≡ self.now) }
    {
        Ok(self.clone()?)
    }
}

impl FormatArgument {
    /// Makes a copy, as the example of [`FormatArgs::try_clone`] shows.
    ///
    /// # Errors
    ///
    /// Returns an error if there is no memory.
    pub fn try_clone(&self, _alloc: Global) -> Result<FormatArgument, AllocError>
        ensures { IfOk result (λ copy. copy ≡ self.now) }
    {
        Ok(self.clone()?)
    }
}

impl FormatArgumentKind {
    ghost use Rattle.hir_fmt.specs.Names.{name_of};

    /// Returns the name that an argument of this kind bears, if it bears one. The type has an example.
    pub fn ident(&self) -> Option<&Name>
        ensures { option_copied result ≡ name_of self.now }
    {
        match self {
            FormatArgumentKind::Normal => None,
            FormatArgumentKind::Named(name) | FormatArgumentKind::Captured(name) => Some(name),
        }
    }

    /// Makes a copy, as the example of [`FormatArgs::try_clone`] shows.
    ///
    /// # Errors
    ///
    /// Returns an error if there is no memory.
    pub fn try_clone(&self, _alloc: Global) -> Result<FormatArgumentKind, AllocError>
        ensures { IfOk result (λ copy. copy ≡ self.now) }
    {
        Ok(self.clone()?)
    }
}

impl PartialEq for FormatArgs {
    ghost use Rattle.std.specs.Cmp.{partial_equiv_from_equiv};
    ghost use Rattle.hir_fmt.specs.Same.{same_call, same_call_equiv};

    ghost eq = { same_call };

    ghost laws = { partial_equiv_from_equiv same_call_equiv };

    fn eq(&self, other: &FormatArgs) -> bool {
        self.template.as_slice() == other.template.as_slice()
            && self.arguments == other.arguments
            && self.orphans.as_slice() == other.orphans.as_slice()
    }
}

impl Eq for FormatArgs {
    ghost use Rattle.hir_fmt.specs.Same.{same_call_equiv};

    ghost laws = { same_call_equiv };
}

impl PartialEq for FormatArguments {
    ghost use Rattle.std.specs.Cmp.{partial_equiv_from_equiv};
    ghost use Rattle.hir_fmt.specs.Same.{same_arguments, same_arguments_equiv};

    ghost eq = { same_arguments };

    ghost laws = { partial_equiv_from_equiv same_arguments_equiv };

    fn eq(&self, other: &FormatArguments) -> bool {
        self.arguments.as_slice() == other.arguments.as_slice()
            && self.num_unnamed_args == other.num_unnamed_args
            && self.num_explicit_args == other.num_explicit_args
            && self.names.as_slice() == other.names.as_slice()
    }
}

impl Eq for FormatArguments {
    ghost use Rattle.hir_fmt.specs.Same.{same_arguments_equiv};

    ghost laws = { same_arguments_equiv };
}
