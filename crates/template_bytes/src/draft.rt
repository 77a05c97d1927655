ghost use Rattle.std.specs.Prelude.{◌≡◌, ◌+◌, [], ◌∷◌, ◌++◌, OnOk, IfOk, string_bytes};
ghost use Rattle.code_meaning.specs.Template.{Slot as SpecSlot};
ghost use Rattle.template_bytes.specs.Fields.{slot_bytes, fields_for};
ghost use Rattle.template_bytes.specs.Literals.{literal_bytes};
ghost use Rattle.template_bytes.specs.Shown.{IsShown};

use crate::fields::{fields_for, push_fields};
use crate::literal::push_literal;
use crate::slot::Slot;
use std::alloc::{AllocError, Global};

// What is written behind everything else.
const END: u8 = 0x00;

/// Template bytes while they are written.
///
/// The text behind the last slot is kept until the next slot or the end, so that literals that stand together become one. Where memory is
/// refused, the bytes may end inside an item, and are let go.
#[derive(Drop)]
pub(crate) struct Draft {
    // What is written, up to the last slot.
    bytes: Vec<u8>,
    // The place behind that of the last slot.
    next: u64,
    // The text behind the last slot.
    literal: String,
}

impl Draft {
    /// Nothing yet, which takes no memory.
    pub(crate) fn new(alloc: Global) -> Draft
        ensures bytes { result.bytes.items ≡ [] }
        ensures next { result.next ≡ 0 }
        ensures literal { string_bytes result.literal ≡ [] }
    {
        Draft {
            bytes: Vec::new(alloc),
            next: 0,
            literal: String::new(alloc),
        }
    }

    /// Adds text.
    pub(crate) fn push_text(&mut self, text: &str) -> Result<(), AllocError>
        ensures literal { OnOk result (string_bytes self.new.literal ≡ string_bytes self.old.literal ++ text.now) }
        ensures bytes { self.new.bytes ≡ self.old.bytes }
        ensures next { self.new.next ≡ self.old.next }
    {
        self.literal.push_str(text)
    }

    // Writes the text behind the last slot.
    fn write_literal(&mut self) -> Result<(), AllocError>
        ensures bytes { OnOk result (self.new.bytes.items ≡ self.old.bytes.items ++ literal_bytes (string_bytes self.old.literal)) }
        ensures next { self.new.next ≡ self.old.next }
        ensures literal { OnOk result (string_bytes self.new.literal ≡ []) }
    {
        push_literal(&mut self.bytes, self.literal.as_str())?;
        self.literal.clear();
        Ok(())
    }

    /// Writes the text behind the last slot, and then this slot.
    pub(crate) fn push_slot(&mut self, slot: Slot) -> Result<(), AllocError>
        ensures bytes { OnOk result ((s : SpecSlot) → IsShown slot s → self.new.bytes.items ≡ (self.old.bytes.items ++ literal_bytes (string_bytes self.old.literal)) ++ slot_bytes (fields_for self.old.next s)) }
        ensures next { OnOk result (self.new.next ≡ slot.place + 1) }
        ensures literal { OnOk result (string_bytes self.new.literal ≡ []) }
    {
        self.write_literal()?;
        push_fields(&mut self.bytes, fields_for(self.next, &slot))?;
        self.next = u64::from(slot.place) + 1;
        Ok(())
    }

    /// The whole template: what is written, the text behind the last slot, and the end.
    pub(crate) fn finish(mut self) -> Result<Vec<u8>, AllocError>
        ensures { IfOk result (λ bytes. bytes.items ≡ (self.bytes.items ++ literal_bytes (string_bytes self.literal)) ++ 0 ∷ []) }
    {
        self.write_literal()?;
        self.bytes.push(END)?;
        Ok(self.bytes)
    }
}
