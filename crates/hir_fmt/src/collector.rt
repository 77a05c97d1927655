ghost use types.Logic.{sem};
ghost use Rattle.std.specs.Prelude.{◌≡◌, ◌↔◌, ◌<◌, ◌≤◌, ◌++◌, ◌∷◌, [], length, slice_get, Some, IfOk, IfSome, OnOk, OnErr, IsTrue, is_some, option_copied, option_map};
ghost use Rattle.std.specs.HashMap.{IsUnchanged};
ghost use Rattle.hir_fmt.specs.Arguments.{AreWithin, MayFollow, explicit_count, explicit_of, listed, named_of, no_arguments, unnamed_count, unnamed_of, with_argument};
ghost use Rattle.hir_fmt.specs.Firsts.{EntersFirst, HasFirsts, first_place};
ghost use Rattle.hir_fmt.specs.Lends.{lends_arguments};

use crate::format_args::{FormatArgument, FormatArgumentKind, FormatArguments};
use sqlite_items::Items;
use std::alloc::{AllocError, Global};
use std::collections::HashMap;
use std::marker::Model;
use sym_core::Name;

/// The arguments of a format call while they are brought together: those that are written, and then those that the text
/// captures.
///
/// A name is found by its hash. Where `unnamed`, `named` and `captured` are arguments of these kinds:
///
/// ```
/// let mut args = FormatArgumentsCollector::new(alloc);
/// assert_eq!(args.add(unnamed)?, 0);
/// assert_eq!(args.add(named)?, 1);                            // under the name `w`
/// assert_eq!(args.add(later)?, 2);                            // unnamed, behind a name
/// assert_eq!(args.add(captured)?, 3);                         // under the name `x`
/// assert_eq!(args.by_name(&w).map(|(place, _)| place), Some(1));
/// assert!(args.by_index(2).is_some() && args.by_index(3).is_none());
/// assert_eq!((args.unnamed_args().len(), args.named_args().len()), (1, 2));
/// assert_eq!((args.num_explicit_args(), args.all_args().len()), (3, 4));
/// ```
#[derive(Debug, Drop)]
pub struct FormatArgumentsCollector {
    arguments: Vec<FormatArgument>,
    num_unnamed_args: usize,
    num_explicit_args: usize,
    names: Vec<(Name, usize)>,
    // The place of the first argument of each name.
    places: HashMap<Name, usize>,
}

impl Model for FormatArgumentsCollector {
    ghost use Rattle.hir_fmt.specs.declared.format_args.FormatArguments.{FormatArguments as Arguments};
    ghost use Rattle.hir_fmt.specs.Arguments.{arguments_code};
    ghost use Rattle.hir_fmt.specs.Firsts.{IsCollected};

    ghost Value = { Arguments };

    ghost coded = { arguments_code };

    ghost view = { λ c. record { arguments = c.arguments.items; num_unnamed_args = c.num_unnamed_args; num_explicit_args = c.num_explicit_args; names = c.names.items } };

    ghost invariant = { λ c. IsCollected (record { arguments = c.arguments.items; num_unnamed_args = c.num_unnamed_args; num_explicit_args = c.num_explicit_args; names = c.names.items }) c.places };
}

impl FormatArgumentsCollector {
    /// Makes a collector without arguments, which takes no memory. The type's example begins with it.
    pub fn new(alloc: Global) -> FormatArgumentsCollector
        ensures { result ≡ no_arguments }
    {
        FormatArgumentsCollector {
            arguments: Vec::new(alloc),
            num_unnamed_args: 0,
            num_explicit_args: 0,
            names: Vec::new(alloc),
            places: HashMap::new(alloc),
        }
    }

    /// Adds an argument behind the others, and returns its place. The type has an example.
    ///
    /// One that is written must come in front of all that are captured.
    ///
    /// # Errors
    ///
    /// Returns an error if there is no memory; the arguments are then as they were.
    pub fn add(&mut self, arg: FormatArgument) -> Result<usize, AllocError>
        requires { MayFollow self.old arg.kind }
        ensures place { IfOk result (λ place. place ≡ length self.old.arguments) }
        ensures added { OnOk result (self.new ≡ with_argument self.old arg) }
        ensures err { OnErr result (self.new ≡ self.old) }
    {
        let place = self.arguments.len();
        let unnamed = unnamed_count(&self.names, &arg.kind);
        let explicit = explicit_count(&arg.kind);
        self.arguments.reserve(1)?;
        enter_named(&mut self.names, &mut self.places, &arg.kind, place)?;
        self.num_unnamed_args += unnamed;
        self.num_explicit_args += explicit;
        self.arguments.push_reserved(arg);
        Ok(place)
    }

    /// Returns the first argument that was added under this name, with its place. The type has an example.
    pub fn by_name(&self, name: &Name) -> Option<(usize, &FormatArgument)>
        ensures place { option_map (λ found. found.0) result ≡ first_place self.now.names name.now }
        ensures argument { IfSome result (λ found. slice_get self.now.arguments found.0 ≡ Some found.1.now) }
    {
        match self.places.get(name) {
            Some(place) => Some((*place, &self.arguments[*place])),
            None => None,
        }
    }

    /// Returns the written argument at this place, if there is one. The type has an example.
    pub fn by_index(&self, i: usize) -> Option<&FormatArgument>
        ensures argument { option_copied result ≡ slice_get (explicit_of self.now) i }
        ensures written { IsTrue (is_some result) ↔ (i < self.now.num_explicit_args) }
    {
        self.explicit_args().get(i)
    }

    /// Returns how many arguments are written. The type has an example.
    pub fn num_explicit_args(&self) -> usize
        ensures value { result ≡ self.now.num_explicit_args }
        ensures within { AreWithin self.now }
    {
        self.num_explicit_args
    }

    /// Returns the arguments in front of the first that bears a name. The type has an example.
    pub fn unnamed_args(&self) -> &[FormatArgument]
        ensures { result.now ≡ unnamed_of self.now }
    {
        &self.arguments[..self.num_unnamed_args]
    }

    /// Returns the written arguments from the first that bears a name on. The type has an example.
    pub fn named_args(&self) -> &[FormatArgument]
        ensures { result.now ≡ named_of self.now }
    {
        &self.arguments[self.num_unnamed_args..self.num_explicit_args]
    }

    /// Returns the written arguments.
    ///
    /// ```
    /// assert_eq!(args.explicit_args().len(), 3);                  // of the arguments of the type's example
    /// ```
    pub fn explicit_args(&self) -> &[FormatArgument]
        ensures value { result.now ≡ explicit_of self.now }
        ensures within { AreWithin self.now }
    {
        &self.arguments[..self.num_explicit_args]
    }

    /// Returns all arguments. The type has an example.
    pub fn all_args(&self) -> &[FormatArgument]
        ensures value { result.now ≡ self.now.arguments }
        ensures within { AreWithin self.now }
    {
        self.arguments.as_slice()
    }

    /// Returns all arguments, for writing. Names and counts stay those of the additions.
    ///
    /// ```
    /// let before = args.try_clone(alloc)?;
    /// if let Some(first) = args.all_args_mut().get_mut(0) {
    ///     first.syntax = None;
    /// }
    /// assert!(args != before);
    /// ```
    pub fn all_args_mut(&mut self) -> &mut [FormatArgument]
        ensures* writes_back { sem 𝓛 (lends_arguments self.entry result) }
        ensures value { result.now ≡ self.old.arguments }
    {
        self.arguments.as_mut_slice()
    }

    /// Returns all that was added.
    ///
    /// ```
    /// let finished = args.finish();                               // the arguments of the type's example
    /// assert_eq!((finished.num_unnamed_args, finished.num_explicit_args), (1, 3));
    /// assert_eq!((finished.arguments.len(), finished.names.len()), (4, 2));
    /// ```
    pub fn finish(self) -> FormatArguments
        ensures value { result ≡ self }
        ensures within { AreWithin self }
    {
        let FormatArgumentsCollector {
            arguments,
            num_unnamed_args,
            num_explicit_args,
            names,
            places,
        } = self;
        drop(places);
        FormatArguments {
            arguments: Items::from_vec(arguments),
            num_unnamed_args,
            num_explicit_args,
            names: Items::from_vec(names),
        }
    }

    /// Makes a copy.
    ///
    /// ```
    /// assert!(args.try_clone(alloc)? == args);
    /// ```
    ///
    /// # Errors
    ///
    /// Returns an error if there is no memory.
    pub fn try_clone(&self, alloc: Global) -> Result<FormatArgumentsCollector, AllocError>
        ensures { IfOk result (λ copy. copy ≡ self.now) }
    {
        let arguments = Vec::from_clones(alloc, self.arguments.as_slice())?;
        let names = Vec::from_clones(alloc, self.names.as_slice())?;
        let places = self.places.clone()?;
        Ok(FormatArgumentsCollector {
            arguments,
            num_unnamed_args: self.num_unnamed_args,
            num_explicit_args: self.num_explicit_args,
            names,
            places,
        })
    }
}

impl PartialEq for FormatArgumentsCollector {
    ghost use Rattle.std.specs.Cmp.{partial_equiv_from_equiv};
    ghost use Rattle.hir_fmt.specs.Same.{same_arguments, same_arguments_equiv};

    ghost eq = { same_arguments };

    ghost laws = { partial_equiv_from_equiv same_arguments_equiv };

    fn eq(&self, other: &FormatArgumentsCollector) -> bool {
        self.arguments == other.arguments
            && self.num_unnamed_args == other.num_unnamed_args
            && self.num_explicit_args == other.num_explicit_args
            && self.names == other.names
    }
}

impl Eq for FormatArgumentsCollector {
    ghost use Rattle.hir_fmt.specs.Same.{same_arguments_equiv};

    ghost laws = { same_arguments_equiv };
}

// One for an argument that is written, and none for one that the text captures.
fn explicit_count(kind: &FormatArgumentKind) -> usize
    ensures { result ≡ explicit_count kind.now }
{
    match kind {
        FormatArgumentKind::Normal | FormatArgumentKind::Named(_) => 1,
        FormatArgumentKind::Captured(_) => 0,
    }
}

// One for an argument that bears no name, as none in front of it does.
fn unnamed_count(names: &[(Name, usize)], kind: &FormatArgumentKind) -> usize
    ensures { result ≡ unnamed_count names.now kind.now }
{
    match kind {
        FormatArgumentKind::Normal if names.is_empty() => 1,
        _ => 0,
    }
}

// Enters the name that an argument of this kind bears, if it bears one, with the place of the argument.
fn enter_named(
    names: &mut Vec<(Name, usize)>,
    places: &mut HashMap<Name, usize>,
    kind: &FormatArgumentKind,
    place: usize,
) -> Result<(), AllocError>
    requires { HasFirsts names.old.items places.old }
    ensures ok { OnOk result (names.new.items ≡ names.old.items ++ listed kind.now place) }
    ensures err { OnErr result (names.new.items ≡ names.old.items) }
    ensures firsts { HasFirsts names.new.items places.new }
{
    match kind.ident() {
        Some(name) => enter(names, places, name, place),
        None => Ok(()),
    }
}

fn enter(
    names: &mut Vec<(Name, usize)>,
    places: &mut HashMap<Name, usize>,
    name: &Name,
    place: usize,
) -> Result<(), AllocError>
    requires { HasFirsts names.old.items places.old }
    ensures ok { OnOk result (names.new.items ≡ names.old.items ++ (name.now, place) ∷ []) }
    ensures err { OnErr result (names.new.items ≡ names.old.items) }
    ensures firsts { HasFirsts names.new.items places.new }
{
    let bearer = name.clone()?;
    let key = name.clone()?;
    names.reserve(1)?;
    enter_first(places, key, place)?;
    names.push_reserved((bearer, place));
    Ok(())
}

// Enters a name with a place, unless it has one.
fn enter_first(
    places: &mut HashMap<Name, usize>,
    name: Name,
    place: usize,
) -> Result<(), AllocError>
    ensures ok { OnOk result (EntersFirst places.old name place places.new) }
    ensures err { OnErr result (IsUnchanged places.old places.new) }
{
    if places.contains_key(&name) {
        return Ok(());
    }
    places.insert(name, place)?;
    Ok(())
}
