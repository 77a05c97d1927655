ghost use Rattle.std.specs.Prelude.{◌≡◌, ◌↔◌, ◌+◌, ◌<◌, ◌≤◌, false, IsOk};
ghost use Rattle.ra_cfg.specs.Reading.{is_off};
ghost use Rattle.hir_expander.specs.Gate.{first_off, refused_by};
ghost use Rattle.hir_expander.specs.Answers.{Answers, AnswersId};
ghost use Rattle.hir_expander.specs.Machine.{IsMachine, after, begun, exited, max_recursion_limit, step_into, step_of};

use crate::{ExpandError, ExpandResult, FileMaps, Macros, Mark, UnresolvedMacro};
use ra_cfg::{CfgExpr, CfgOptions};
use std::marker::Model;
use sym_core::{HirFileId, InFile, MacroCallId};
use syn_trees::{MacroCallSrc, Template};

/// The greatest recursion limit.
pub const MAX_RECURSION_LIMIT: u32 = 4_294_967_293;

// The depth that stands for an overflow: the limit was passed somewhere in the tree of expansions.
const OVERFLOW: u32 = u32::MAX;

/// Where a lowering stands: the file that is read, and how deep it lies in expansions.
///
/// Expansions are entered as deep as the recursion limit and one more. Behind that nothing is entered any more until
/// the file that no macro made is read again, so that no tree of calls is expanded without end.
///
/// ```
/// let mut expander = Expander::new(&macros, file, 0, 128);
/// let entry = expander.enter_expand(&macros, &call)?;
/// let ExpandResult { value, err } = entry;
/// if let Some((mark, expansion)) = value {
///     assert_eq!(expander.macro_depth(), 1);
///     expander.exit(mark);
/// }
/// assert_eq!(expander.macro_depth(), 0);
/// ```
#[derive(Drop)]
pub struct Expander {
    current_file_id: HirFileId,
    maps: FileMaps,
    macro_depth: u32,
    recursion_limit: u32,
}

impl Model for Expander {
    ghost use Rattle.hir_expander.specs.Machine.{Machine, IsMachine};

    ghost Value = { Machine };

    ghost view = { λ e. record { current = record { file_id = e.current_file_id; maps = e.maps }; depth = e.macro_depth; limit = e.recursion_limit } };

    ghost invariant = { λ e. IsMachine e.macro_depth e.recursion_limit };
}

impl Expander {
    /// An expander that stands in this file, which lies so many expansions deep.
    pub fn new<M: Macros>(macros: &M, file: HirFileId, depth: u32, recursion_limit: u32) -> Expander
        requires limit { recursion_limit ≤ max_recursion_limit }
        requires depth { depth ≤ recursion_limit + 1 }
        ensures { result ≡ begun file (M.mapped macros.now file) depth recursion_limit }
    {
        Expander {
            current_file_id: file,
            maps: macros.maps(file),
            macro_depth: depth,
            recursion_limit,
        }
    }

    /// Whether a thing with these predicates is switched on.
    ///
    /// # Errors
    ///
    /// Lends the first predicate that, taken by itself, evaluates to `Some(false)`, exactly where there is one.
    pub fn is_cfg_enabled<'c>(
        &self,
        cfgs: &'c [CfgExpr],
        opts: &CfgOptions,
    ) -> Result<(), &'c CfgExpr>
        ensures first { refused_by result ≡ first_off opts.now cfgs.now }
        ensures enabled { IsOk result ↔ (is_off opts.now cfgs.now ≡ false) }
    {
        for cfg in cfgs {
            if opts.check(cfg) == Some(false) {
                return Err(cfg);
            }
        }
        Ok(())
    }

    /// Enters what a call in the current file expands to.
    ///
    /// At an overflow nothing is entered and nothing is told. Else a call without a path is told as `Malformed`, one
    /// that leads to no macro as an error, and one that lies too deep as `RecursionOverflow`. Any other call is entered.
    ///
    /// # Errors
    ///
    /// The path of the call leads to no macro.
    pub fn enter_expand<'m, M: Macros>(
        &mut self,
        macros: &'m M,
        call: &MacroCallSrc,
    ) -> Result<ExpandResult<'m>, UnresolvedMacro>
        ensures state { self.new ≡ after (M.mapped macros.now) self.old (step_of self.old call.now (M.resolved macros.now self.old.current.file_id call.now)) }
        ensures bounded { IsMachine self.new.depth self.new.limit }
        ensures answer { Answers (M.expanded macros.now) self.old (step_of self.old call.now (M.resolved macros.now self.old.current.file_id call.now)) result }
    {
        if self.macro_depth == OVERFLOW {
            return Ok(ExpandResult::only(None));
        }
        if call.path.is_none() {
            return Ok(ExpandResult::only(Some(ExpandError::Malformed)));
        }
        match macros.resolve(self.current_file_id, call) {
            None => Err(UnresolvedMacro),
            Some(id) => Ok(self.enter_expand_id(macros, id)),
        }
    }

    /// Enters the expansion of this id, as [`Expander::enter_expand`] enters the one of a call.
    pub fn enter_expand_id<'m, M: Macros>(
        &mut self,
        macros: &'m M,
        id: MacroCallId,
    ) -> ExpandResult<'m>
        ensures state { self.new ≡ after (M.mapped macros.now) self.old (step_into self.old id) }
        ensures bounded { IsMachine self.new.depth self.new.limit }
        ensures answer { AnswersId (M.expanded macros.now) self.old (step_into self.old id) result }
    {
        if self.macro_depth == OVERFLOW {
            return ExpandResult::only(None);
        }
        if self.macro_depth > self.recursion_limit {
            self.macro_depth = OVERFLOW;
            return ExpandResult::only(Some(ExpandError::RecursionOverflow));
        }
        let mark = Mark {
            file_id: self.current_file_id,
            maps: self.maps,
        };
        let file = HirFileId::Macro(id);
        self.macro_depth += 1;
        self.current_file_id = file;
        self.maps = macros.maps(file);
        ExpandResult {
            value: Some((mark, macros.expansion(id))),
            err: None,
        }
    }

    /// Leaves an expansion: back to the file of its mark.
    ///
    /// The depth falls by one. After an overflow it stays until a file that no macro made is reached, and is 0 there.
    pub fn exit(&mut self, mark: Mark)
        requires { 0 < self.old.depth }
        ensures state { self.new ≡ exited self.old mark }
        ensures bounded { IsMachine self.new.depth self.new.limit }
    {
        let Mark { file_id, maps } = mark;
        self.current_file_id = file_id;
        self.maps = maps;
        if self.macro_depth != OVERFLOW {
            self.macro_depth -= 1;
        } else if !file_id.is_macro() {
            self.macro_depth = 0;
        }
    }

    /// The value, as one of the current file.
    pub fn in_file<T>(&self, value: T) -> InFile<T>
        ensures file { result.file_id ≡ self.now.current.file_id }
        ensures value { result.value ≡ value }
    {
        InFile {
            file_id: self.current_file_id,
            value,
        }
    }

    /// The file that is read.
    pub fn current_file_id(&self) -> HirFileId
        ensures { result ≡ self.now.current.file_id }
    {
        self.current_file_id
    }

    /// The number of the current file's map of spans.
    pub fn span_map(&self) -> u32
        ensures { result ≡ self.now.current.maps.span_map }
    {
        self.maps.span_map
    }

    /// The number of the current file's map of ids.
    pub fn ast_id_map(&self) -> u32
        ensures { result ≡ self.now.current.maps.ast_id_map }
    {
        self.maps.ast_id_map
    }

    /// How many expansions deep the current file lies, at most one more than the limit; `u32::MAX` at an overflow.
    pub fn macro_depth(&self) -> u32
        ensures value { result ≡ self.now.depth }
        ensures bounded { IsMachine result self.now.limit }
    {
        self.macro_depth
    }

    /// The recursion limit.
    pub fn recursion_limit(&self) -> u32
        ensures value { result ≡ self.now.limit }
        ensures bounded { result ≤ max_recursion_limit }
    {
        self.recursion_limit
    }
}
