//! The predicates of conditional compilation, and the options that they are evaluated under.
//! A predicate evaluates to `Some(true)`, `Some(false)` or `None`: it reads true, false or nothing. What is off is what reads false.
#![tactic(auto)]

mod cfg_diff;
mod cfg_expr;
mod cfg_iter;
mod cfg_options;
mod cfg_text;
mod hashable;
mod laws;
mod parse_ast;
mod parse_tokens;

pub use cfg_diff::CfgDiff;
pub use cfg_expr::{CfgAtom, CfgExpr};
pub use cfg_iter::{CfgIntoIter, CfgIter, CfgKeys, CfgValues};
pub use cfg_options::CfgOptions;
pub use cfg_text::write_atoms;
pub use hashable::HashableCfgOptions;
pub use laws::{
    atoms_in_order, diff_decides, diff_has_each_once, diff_has_its_atoms, listings_decide,
    options_stay_settable, predicates_in_turn,
};
