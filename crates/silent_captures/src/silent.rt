use hir_fmt::Captures;
use hir_store::ExprId;
use la_arena::RawIdx;
use sym_core::{Name, TextRange};

/// Makes an expression for every name, numbered from 0 on, and never refuses.
#[derive(Drop)]
pub struct Silent {
    made: u32,
}

impl Silent {
    /// None made yet.
    pub fn new() -> Silent {
        Silent { made: 0 }
    }
}

impl Captures for Silent {
    type Refused = u32;

    ghost use Rattle.std.specs.Prelude.{None, ⊤};

    ghost log = { λ silent. None };

    ghost refusals = { λ silent. 0 };

    ghost allows = { λ silent reason. ⊤ };

    ghost grows = { λ old new. ⊤ };

    fn synth(&mut self, _name: &Name, _span: Option<TextRange>) -> Result<ExprId, u32> {
        let raw = RawIdx::from_u32(self.made);
        self.made = self.made.saturating_add(1);
        Ok(ExprId { raw })
    }

    fn record_usage(&mut self, _name: &Name, _span: Option<TextRange>) -> Result<(), u32> {
        Ok(())
    }

    ghost grows_self = { λ a. tt };

    ghost grows_on = { λ a b c first more. tt };
}
