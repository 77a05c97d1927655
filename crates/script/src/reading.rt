ghost use Rattle.std.specs.Prelude.{◌≡◌, ◌<◌, ◌≤◌, [], Some, IfOk, OnOk, length};
ghost use Rattle.hir_expander.specs.Table.{max_macros};
ghost use Rattle.script_grammar.specs.declared.item.Item.{Item};
ghost use Rattle.script.specs.Contents.{without};
ghost use Rattle.script.specs.ReadLines.{GoesOn, AddsCall, HasRead};

use gated_calls::{Call, GatedCall};
use hir_expander::MacroTable;
use hir_store::{LangItem, LangItems};
use ra_cfg::{CfgExpr, CfgOptions};
use script_grammar::{Item, RecursionLimit};
use sqlite_items::Items;
use std::alloc::{AllocError, Global};
use std::mem;
use sym_core::AstPtr;
use syn_trees::{CfgPredicate, TokenTree, TopSubtree};

/// What the lines of a script have said so far.
#[derive(Drop)]
pub(crate) struct Reading {
    /// The options, with those that were put in.
    pub(crate) options: CfgOptions,
    /// The macros that were defined.
    pub(crate) macros: MacroTable,
    /// The last recursion limit, or the usual one.
    pub(crate) limit: RecursionLimit,
    /// The language items that were not taken away.
    pub(crate) items: LangItems,
    /// The predicates that wait for a call.
    pub(crate) waiting: Items<CfgExpr>,
    /// The calls, in order.
    pub(crate) calls: Vec<GatedCall>,
}

impl Reading {
    /// What no lines say.
    pub(crate) fn new(alloc: Global) -> Result<Reading, AllocError>
        ensures { IfOk result (λ reading. HasRead reading []) }
    {
        let options = CfgOptions::new(alloc)?;
        Ok(Reading {
            options,
            macros: MacroTable::new(alloc),
            limit: RecursionLimit::usual(),
            items: LangItems {
                format_arguments: true,
                format_argument: true,
            },
            waiting: Items::new(alloc),
            calls: Vec::new(alloc),
        })
    }

    /// The pointer of the next call: the number of the calls so far.
    pub(crate) fn next_ptr(&self) -> AstPtr
        requires { length self.now.calls.items ≤ 4_294_967_295 }
        ensures { result.node ≡ length self.now.calls.items }
    {
        AstPtr {
            node: self.calls.len() as u32,
        }
    }

    // Takes a language item away.
    fn take_away(&mut self, item: LangItem)
        ensures { GoesOn self.old (Some (Item.NoLang item)) self.new }
    {
        match item {
            LangItem::FormatArguments => self.items.format_arguments = false,
            LangItem::FormatArgument => self.items.format_argument = false,
        }
    }

    // Lets the predicate that token trees say wait for the next call.
    fn push_trees(&mut self, alloc: Global, trees: Items<TokenTree>) -> Result<(), AllocError>
        ensures { OnOk result (GoesOn self.old (Some (Item.Cfg trees)) self.new) }
    {
        let predicate = CfgExpr::parse(alloc, &TopSubtree { trees })?;
        self.waiting.push(predicate)
    }

    // Lets the predicate that a syntax says wait for the next call.
    fn push_syntax(&mut self, alloc: Global, syntax: CfgPredicate) -> Result<(), AllocError>
        ensures { OnOk result (GoesOn self.old (Some (Item.Attr syntax)) self.new) }
    {
        let predicate = CfgExpr::parse_from_ast(alloc, &syntax)?;
        self.waiting.push(predicate)
    }

    // Adds a call, with the predicates that waited for it.
    fn push_call(&mut self, alloc: Global, call: Call) -> Result<(), AllocError>
        ensures { OnOk result (AddsCall self.old call self.new) }
    {
        let cfgs = mem::replace(&mut self.waiting, Items::new(alloc));
        self.calls.push(GatedCall { cfgs, call })?;
        Ok(())
    }

    /// Adds what the next line says.
    pub(crate) fn add(&mut self, alloc: Global, item: Item) -> Result<(), AllocError>
        requires { length self.old.macros < max_macros }
        ensures { OnOk result (GoesOn self.old (Some item) self.new) }
    {
        match item {
            Item::Flag(name) => {
                self.options.insert_atom(name)?;
            }
            Item::Pair { key, value } => {
                self.options.insert_key_value(key, value)?;
            }
            Item::Version { text, answer } => self.options.set_version(text, answer)?,
            Item::Limit(limit) => self.limit = limit,
            Item::NoLang(lang) => self.take_away(lang),
            Item::Macro { name, body } => self.macros.define(name, body)?,
            Item::Cfg(trees) => self.push_trees(alloc, trees)?,
            Item::Attr(syntax) => self.push_syntax(alloc, syntax)?,
            Item::Format(call) => self.push_call(alloc, Call::Format(call))?,
            Item::Asm(call) => self.push_call(alloc, Call::Asm(call))?,
        }
        Ok(())
    }
}
