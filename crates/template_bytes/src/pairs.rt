ghost use Rattle.std.specs.Prelude.{◌≡◌, ◌<◌, ◌≤◌, List, [], ◌++◌, length, IfOk, OnOk};
ghost use Rattle.template_bytes.specs.Canonical.{reference_of, count_of};
ghost use Rattle.template_bytes.specs.Pairs.{Pair as PairShown, added, added_all, place_among, count_among, count_uses};
ghost use Rattle.template_bytes.specs.Fields.{is_given};
ghost use Rattle.template_bytes.specs.Spelling.{IsShortCount};
ghost use Rattle.template_bytes.specs.ShownPairs.{shown_pair, shown_pairs};
ghost use Rattle.template_bytes.specs.Shown.{placeholder_uses, shown_count, IsSlotOf};

use crate::error::EncodeError;
use crate::flags::flags_word;
use crate::pair::{Pair, Usage};
use crate::slot::{Count, Slot};
use hir_fmt::{FormatArgPosition, FormatCount, FormatPlaceholder};
use indexmap::IndexSet;
use std::alloc::Global;
use std::marker::Model;

/// The most pairs that a template can have: a place has 32 bits.
const MOST_PAIRS: usize = 4_294_967_296;

/// The distinct pairs of a template, in the order in which they were first inserted. Pairs are found by their hash.
#[derive(Drop)]
pub(crate) struct Pairs {
    set: IndexSet<Pair>,
}

impl Model for Pairs {
    ghost use Rattle.std.specs.Prelude.{List};
    ghost use Rattle.template_bytes.specs.Pairs.{Pair};
    ghost use Rattle.template_bytes.specs.Fields.{is_given};
    ghost use Rattle.template_bytes.specs.Spelling.{IsShortCount};
    ghost use Rattle.template_bytes.specs.ShownPairs.{shown_pairs};

    ghost Value = { List Pair };

    ghost view = { λ pairs. shown_pairs pairs.set.keys };
}

impl Pairs {
    /// No pairs, which take no memory.
    pub(crate) fn new(alloc: Global) -> Pairs
        ensures { result ≡ [] }
    {
        Pairs {
            set: IndexSet::new(alloc),
        }
    }

    /// The set of them.
    pub(crate) fn into_set(self) -> IndexSet<Pair>
        ensures { shown_pairs result.keys ≡ self }
    {
        self.set
    }

    /// Inserts a pair last, if it is not there yet, and returns its place.
    fn insert(&mut self, pair: Pair) -> Result<u32, EncodeError>
        ensures pairs { OnOk result (self.new ≡ added self.old (shown_pair pair)) }
        ensures place { IfOk result (λ place. (more : List PairShown) → place_among (self.new ++ more) (shown_pair pair) ≡ place) }
        ensures room { OnOk result (length self.new ≤ MOST_PAIRS) }
        ensures full { result ≡ Err EncodeError.TooManyPairs → MOST_PAIRS < length (added self.old (shown_pair pair)) }
    {
        let (place, _) = self.set.insert_full(pair)?;
        if MOST_PAIRS < self.set.len() {
            return Err(EncodeError::TooManyPairs);
        }
        Ok(place as u32)
    }

    /// Inserts the pairs of a placeholder, in the order value, width, precision, and returns its slot.
    pub(crate) fn number(&mut self, placeholder: &FormatPlaceholder) -> Result<Slot, EncodeError>
        ensures pairs { OnOk result (self.new ≡ added_all self.old (placeholder_uses placeholder.now)) }
        ensures slot { IfOk result (λ slot. IsSlotOf slot self.new placeholder.now) }
        ensures room { OnOk result (length self.new ≤ MOST_PAIRS) }
        ensures full { result ≡ Err EncodeError.TooManyPairs → MOST_PAIRS < length (added_all self.old (placeholder_uses placeholder.now)) }
    {
        let place = self.insert(Pair {
            argument: reference(&placeholder.argument),
            usage: Usage::Trait(placeholder.format_trait),
        })?;
        let width = self.count(&placeholder.format_options.width)?;
        let precision = self.count(&placeholder.format_options.precision)?;
        Ok(Slot {
            place,
            flags: flags_word(&placeholder.format_options),
            width,
            precision,
        })
    }

    /// Inserts the pair of a width or a precision, if it takes an argument.
    fn count(&mut self, count: &Option<FormatCount>) -> Result<Count, EncodeError>
        ensures pairs { OnOk result (self.new ≡ added_all self.old (count_uses (count_of count.now))) }
        ensures count { IfOk result (λ counted. (more : List PairShown) → count_among (self.new ++ more) (count_of count.now) ≡ shown_count counted) }
        ensures given { IfOk result (λ counted. is_given (count_of count.now) ≡ is_given (shown_count counted)) }
        ensures short { IsShortCount (count_of count.now) }
        ensures room { length self.old ≤ MOST_PAIRS → OnOk result (length self.new ≤ MOST_PAIRS) }
        ensures full { result ≡ Err EncodeError.TooManyPairs → MOST_PAIRS < length (added_all self.old (count_uses (count_of count.now))) }
    {
        match count {
            None => Ok(Count::Absent),
            Some(FormatCount::Literal(number)) => Ok(Count::Number(*number)),
            Some(FormatCount::Argument(position)) => {
                let place = self.insert(Pair {
                    argument: reference(position),
                    usage: Usage::Count,
                })?;
                Ok(Count::Place(place))
            }
        }
    }
}

/// The place of an argument, if the reference is resolved.
fn reference(position: &FormatArgPosition) -> Option<usize>
    ensures { result ≡ reference_of position.now }
{
    match &position.index {
        Ok(place) => Some(*place),
        Err(_) => None,
    }
}
