ghost use Rattle.std.specs.Prelude.{◌≡◌, ◌<◌, [], false, IfOk, OnErr};
ghost use Rattle.std.specs.Iterator.{at_most};
ghost use Rattle.cfg_dnf.specs.Form.{form, chosen};
ghost use Rattle.cfg_dnf.specs.Hints.{hint_if};
ghost use Rattle.cfg_dnf.specs.Making.{Makes};
ghost use Rattle.cfg_dnf.specs.Walking.{left_of, IsStanding, IsAlong, HasEnded};
ghost use Rattle.cfg_dnf.specs.Stepping.{wanted, most_left, Steps, GivesNext, Gives};

use crate::choices::{first_choices, next_choices};
use crate::hinting::chosen_hint;
use ra_cfg::{CfgDiff, CfgExpr, CfgOptions};
use std::alloc::{AllocError, Global};

/// Where a walk over the conjunctions stands: in front of them, at one of them, or behind them.
#[derive(Drop)]
pub(crate) enum WalkState {
    Start,
    At,
    Ended,
}

/// The hints of a predicate under options, in the order of the conjunctions that give one. They are made one by one, by a
/// walk that keeps the choices of one conjunction alone.
#[derive(Drop)]
pub struct EnableHints<'a> {
    pub(crate) alloc: Global,
    pub(crate) expr: &'a CfgExpr,
    pub(crate) opts: &'a CfgOptions,
    pub(crate) choices: Vec<usize>,
    pub(crate) state: WalkState,
}

impl<'a> EnableHints<'a> {
    /// Makes a walk that stands in front of the conjunctions.
    pub(crate) fn new(alloc: Global, expr: &'a CfgExpr, opts: &'a CfgOptions) -> EnableHints<'a>
        ensures expr { result.expr.now ≡ expr.now }
        ensures opts { result.opts.now ≡ opts.now }
        ensures standing { IsStanding result }
        ensures start { result.state ≡ WalkState.Start }
    {
        EnableHints {
            alloc,
            expr,
            opts,
            choices: Vec::new(alloc),
            state: WalkState::Start,
        }
    }

    // Makes the choices of the next conjunction, and returns whether there is one.
    fn find(&mut self) -> Result<bool, AllocError>
        requires { IsStanding self.old }
        ensures along { IsAlong self.old self.new }
        ensures makes { Makes result [] self.new.choices.items (wanted self.old) }
        ensures err { OnErr result (0 < most_left self.old) }
    {
        match self.state {
            WalkState::Start => first_choices(self.expr, false, &mut self.choices),
            WalkState::At => next_choices(self.expr, false, &mut self.choices, 0),
            WalkState::Ended => Ok(false),
        }
    }

    // Goes to the next conjunction, and returns whether there is one.
    fn step(&mut self) -> Result<bool, AllocError>
        requires { IsStanding self.old }
        ensures along { IsAlong self.old self.new }
        ensures steps { Steps result self.old self.new }
        ensures err { OnErr result (0 < most_left self.old) }
    {
        if self.find()? {
            self.state = WalkState::At;
            return Ok(true);
        }
        self.end();
        Ok(false)
    }

    // Goes behind the conjunctions.
    fn end(&mut self)
        ensures along { IsAlong self.old self.new }
        ensures ended { HasEnded self.new }
        ensures standing { IsStanding self.new }
    {
        self.choices.clear();
        self.state = WalkState::Ended;
    }

    // The hint of the conjunction that the walk stands at, if it gives one.
    fn hint(&self) -> Result<Option<CfgDiff>, AllocError>
        ensures { IfOk result (λ hint. hint ≡ hint_if self.now.opts.now (chosen (form self.now.expr.now false) self.now.choices.items)) }
    {
        chosen_hint(self.alloc, self.expr, self.choices.as_slice(), self.opts)
    }

    // Goes to the next conjunction that gives a hint.
    fn next_hint(&mut self) -> Result<Option<CfgDiff>, AllocError>
        requires { IsStanding self.old }
        ensures along { IsAlong self.old self.new }
        ensures gives { IfOk result (λ hint. GivesNext self.old hint self.new) }
        ensures err { OnErr result (0 < most_left self.old) }
    {
        while self.step()? {
            if let Some(hint) = self.hint()? {
                return Ok(Some(hint));
            }
        }
        Ok(None)
    }
}

impl<'a> Iterator for EnableHints<'a> {
    type Item = Result<CfgDiff, AllocError>;

    ghost can_next = { IsStanding };

    ghost next_gives = { λ old result new. IsAlong old new × Gives old result new };

    ghost remaining = { λ walk. at_most (most_left walk) };

    fn next(&mut self) -> Option<Result<CfgDiff, AllocError>> {
        match self.next_hint() {
            Ok(found) => match found {
                Some(hint) => Some(Ok(hint)),
                None => {
                    self.end();
                    None
                }
            },
            Err(error) => {
                self.end();
                Some(Err(error))
            }
        }
    }
}
