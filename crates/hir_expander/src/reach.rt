ghost use Rattle.std.specs.Prelude.{◌≡◌, ◌+◌, ◌-◌, ◌≤◌, ◌⊎◌, suc, true, false, option_copied, option_map, IfSome};
ghost use Rattle.hir_expander.specs.Machine.{is_macro};
ghost use Rattle.hir_expander.specs.Reached.{Keeps, is_direct, literal_of, reached, reached_inside, token_of};

use crate::{ExpandResult, Expander, Macros};
use syn_trees::{StringLit, Template};

impl Expander {
    /// The string literal that a template reaches, through macro calls too, and whether the template is that literal
    /// itself. None where it is anything else, or a call that does not lead to a literal within the recursion limit.
    ///
    /// Each expansion that is entered is left again.
    pub fn expand_macros_to_string<'t, M: Macros>(
        &mut self,
        macros: &'t M,
        template: &'t Template,
    ) -> Option<(&'t StringLit, bool)>
        requires file { is_macro self.old.current.file_id ≡ false }
        requires depth { self.old.depth ≡ 0 }
        ensures literal { option_map (λ reached. reached.0.now) result ≡ literal_of (M.resolved macros.now) (M.expanded macros.now) self.old.limit self.old.current.file_id template.now }
        ensures direct { IfSome result (λ reached. reached.1 ≡ is_direct template.now) }
        ensures unchanged { self.new ≡ self.old }
    {
        let is_direct = matches!(template, Template::Str(_));
        let literal = reach(self, macros, template)?;
        Some((literal, is_direct))
    }
}

// The literal that a template reaches in the current file, with the expansions that are left.
#[cycle(reaching)]
fn reach<'t, M: Macros>(
    expander: &mut Expander,
    macros: &'t M,
    template: &'t Template,
) -> Option<&'t StringLit>
    requires depth { expander.old.depth ≤ expander.old.limit + 1 }
    requires inside { (is_macro expander.old.current.file_id ≡ true) ⊎ (expander.old.depth ≡ 0) }
    ensures literal { token_of result ≡ reached (M.resolved macros.now) (M.expanded macros.now) (expander.old.limit + 1 - expander.old.depth) expander.old.current.file_id template.now }
    ensures keeps { Keeps expander.old expander.new }
{
    match template {
        Template::Str(literal) => Some(literal),
        Template::Other => None,
        Template::Macro(call) => {
            let Ok(entry) = expander.enter_expand(macros, call) else {
                return None;
            };
            let ExpandResult { value, err: _ } = entry;
            match value {
                None => None,
                Some((mark, expansion)) => {
                    let literal = reach_inside(expander, macros, expansion);
                    expander.exit(mark);
                    literal
                }
            }
        }
    }
}

// The literal that an expansion reaches, whose file is the current one.
#[cycle(reaching)]
fn reach_inside<'t, M: Macros>(
    expander: &mut Expander,
    macros: &'t M,
    expansion: Option<&'t Template>,
) -> Option<&'t StringLit>
    requires depth { expander.old.depth ≤ expander.old.limit + 1 }
    requires inside { is_macro expander.old.current.file_id ≡ true }
    ensures literal { token_of result ≡ reached_inside (M.resolved macros.now) (M.expanded macros.now) (expander.old.limit + 1 - expander.old.depth) expander.old.current.file_id (option_copied expansion.entry) }
    ensures keeps { Keeps expander.old expander.new }
{
    match expansion {
        None => None,
        Some(template) => reach(expander, macros, template),
    }
}
