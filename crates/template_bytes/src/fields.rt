ghost use Rattle.std.specs.Prelude.{◌≡◌, ◌++◌, ◌≤◌, false, OnOk};
ghost use Rattle.code_meaning.specs.Template.{Slot as SpecSlot};
ghost use Rattle.template_bytes.specs.Fields.{is_there, is_indirect, first_byte, is_big, is_big_index, is_big_field, is_wide, place_in_bytes, field_bytes, index_bytes, flags_bytes, slot_bytes, unless, field_for, fields_for};
ghost use Rattle.template_bytes.specs.Shown.{shown_field, shown_fields, shown_count, IsShown};

use crate::flags::flag_if;
use crate::slot::{Count, Slot};
use std::alloc::AllocError;

// What begins a slot whose places have four bytes.
const WIDE: u8 = 0x81;

// The first byte of a slot: what each set bit says.
const SLOT: u32 = 0xC0;

const HAS_FLAGS: u32 = 1 << 0;

const HAS_WIDTH: u32 = 1 << 1;

const HAS_PRECISION: u32 = 1 << 2;

const HAS_INDEX: u32 = 1 << 3;

const INDIRECT_WIDTH: u32 = 1 << 4;

const INDIRECT_PRECISION: u32 = 1 << 5;

// The flags of a slot that has none: a space as fill, and no alignment.
const PLAIN_FLAGS: u32 = 0x6000_0020;

/// What a slot has for a width or a precision.
#[derive(Clone, Copy)]
pub(crate) enum Field {
    Absent,
    /// The number itself.
    Direct(u16),
    /// The place of the pair that gives it.
    Indirect(u32),
}

/// What stands in the bytes of a slot.
#[derive(Clone, Copy)]
pub(crate) struct Fields {
    pub(crate) flags: Option<u32>,
    pub(crate) width: Field,
    pub(crate) precision: Field,
    pub(crate) index: Option<u32>,
}

// A number, unless it is the usual one.
fn unless(usual: u64, number: u32) -> Option<u32>
    ensures { result ≡ unless usual number }
{
    if u64::from(number) == usual {
        None
    } else {
        Some(number)
    }
}

fn field_for(count: Count) -> Field
    ensures { shown_field result ≡ field_for (shown_count count) }
{
    match count {
        Count::Absent | Count::Number(0) => Field::Absent,
        Count::Number(number) => Field::Direct(number),
        Count::Place(place) => Field::Indirect(place),
    }
}

/// The fields of a slot: only those that say something. `next` is the place behind that of the slot in front.
pub(crate) fn fields_for(next: u64, slot: &Slot) -> Fields
    ensures { (s : SpecSlot) → IsShown slot.now s → shown_fields result ≡ fields_for next s }
{
    Fields {
        flags: unless(u64::from(PLAIN_FLAGS), slot.flags),
        width: field_for(slot.width),
        precision: field_for(slot.precision),
        index: unless(next, slot.place),
    }
}

fn is_big(place: u32) -> bool
    ensures { result ≡ is_big place }
{
    place > u32::from(u16::MAX)
}

fn is_big_index(index: Option<u32>) -> bool
    ensures { result ≡ is_big_index index }
{
    match index {
        None => false,
        Some(place) => is_big(place),
    }
}

fn is_big_field(field: Field) -> bool
    ensures { result ≡ is_big_field (shown_field field) }
{
    match field {
        Field::Absent | Field::Direct(_) => false,
        Field::Indirect(place) => is_big(place),
    }
}

// Whether a place needs more than two bytes.
fn is_wide(fields: Fields) -> bool
    ensures { result ≡ is_wide (shown_fields fields) }
{
    is_big_index(fields.index) || is_big_field(fields.width) || is_big_field(fields.precision)
}

fn is_there(field: Field) -> bool
    ensures { result ≡ is_there (shown_field field) }
{
    match field {
        Field::Absent => false,
        Field::Direct(_) | Field::Indirect(_) => true,
    }
}

fn is_indirect(field: Field) -> bool
    ensures { result ≡ is_indirect (shown_field field) }
{
    match field {
        Field::Absent | Field::Direct(_) => false,
        Field::Indirect(_) => true,
    }
}

// The byte that says which fields stand behind it.
fn first_byte(fields: Fields) -> u8
    ensures { result ≡ first_byte (shown_fields fields) }
{
    let first = SLOT
        + flag_if(fields.flags.is_some(), HAS_FLAGS)
        + flag_if(is_there(fields.width), HAS_WIDTH)
        + flag_if(is_there(fields.precision), HAS_PRECISION)
        + flag_if(fields.index.is_some(), HAS_INDEX)
        + flag_if(is_indirect(fields.width), INDIRECT_WIDTH)
        + flag_if(is_indirect(fields.precision), INDIRECT_PRECISION);
    first as u8
}

fn push_flags(bytes: &mut Vec<u8>, flags: Option<u32>) -> Result<(), AllocError>
    ensures { OnOk result (bytes.new.items ≡ bytes.old.items ++ flags_bytes flags) }
{
    match flags {
        None => Ok(()),
        Some(flags) => bytes.extend_from_slice(&flags.to_le_bytes()),
    }
}

// Writes a place in four bytes or in two.
fn push_place(bytes: &mut Vec<u8>, wide: bool, place: u32) -> Result<(), AllocError>
    requires { wide ≡ false → place ≤ u16.MAX }
    ensures { OnOk result (bytes.new.items ≡ bytes.old.items ++ place_in_bytes wide place) }
{
    if wide {
        bytes.extend_from_slice(&place.to_le_bytes())
    } else {
        bytes.extend_from_slice(&(place as u16).to_le_bytes())
    }
}

fn push_field(bytes: &mut Vec<u8>, wide: bool, field: Field) -> Result<(), AllocError>
    requires { wide ≡ false → is_big_field (shown_field field) ≡ false }
    ensures { OnOk result (bytes.new.items ≡ bytes.old.items ++ field_bytes wide (shown_field field)) }
{
    match field {
        Field::Absent => Ok(()),
        Field::Direct(number) => bytes.extend_from_slice(&number.to_le_bytes()),
        Field::Indirect(place) => push_place(bytes, wide, place),
    }
}

fn push_index(bytes: &mut Vec<u8>, wide: bool, index: Option<u32>) -> Result<(), AllocError>
    requires { wide ≡ false → is_big_index index ≡ false }
    ensures { OnOk result (bytes.new.items ≡ bytes.old.items ++ index_bytes wide index) }
{
    match index {
        None => Ok(()),
        Some(place) => push_place(bytes, wide, place),
    }
}

/// Writes the bytes of a slot with these fields.
pub(crate) fn push_fields(bytes: &mut Vec<u8>, fields: Fields) -> Result<(), AllocError>
    ensures { OnOk result (bytes.new.items ≡ bytes.old.items ++ slot_bytes (shown_fields fields)) }
{
    let wide = is_wide(fields);
    if wide {
        bytes.push(WIDE)?;
    }
    bytes.push(first_byte(fields))?;
    push_flags(bytes, fields.flags)?;
    push_field(bytes, wide, fields.width)?;
    push_field(bytes, wide, fields.precision)?;
    push_index(bytes, wide, fields.index)
}
