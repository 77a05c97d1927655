ghost use Rattle.std.specs.Prelude.{◌≡◌, ◌≤◌, true, option_map};
ghost use Rattle.code_meaning.specs.Template.{is_scalar};
ghost use Rattle.template_bytes.specs.Canonical.{sign_of, debug_hex_of, alignment_of, options_of, count_of};
ghost use Rattle.template_bytes.specs.Flags.{flag_if, sign_flags, debug_hex_flags, alignment_flags, flags_word};
ghost use Rattle.template_bytes.specs.Fields.{is_given};

use hir_fmt::{FormatAlignment, FormatDebugHex, FormatOptions, FormatSign};

const SIGN_PLUS: u32 = 1 << 21;

const SIGN_MINUS: u32 = 1 << 22;

const ALTERNATE: u32 = 1 << 23;

const ZERO_PAD: u32 = 1 << 24;

const DEBUG_LOWER_HEX: u32 = 1 << 25;

const DEBUG_UPPER_HEX: u32 = 1 << 26;

const HAS_WIDTH: u32 = 1 << 27;

const HAS_PRECISION: u32 = 1 << 28;

const ALIGN_LEFT: u32 = 0;

const ALIGN_RIGHT: u32 = 1 << 29;

const ALIGN_CENTER: u32 = 2 << 29;

const ALIGN_UNKNOWN: u32 = 3 << 29;

/// A flag, where it is set.
pub(crate) fn flag_if(is_set: bool, flag: u32) -> u32
    ensures is { result ≡ flag_if is_set flag }
    ensures small { result ≤ flag }
{
    if is_set { flag } else { 0 }
}

fn sign_flags(sign: Option<FormatSign>) -> u32
    ensures is { result ≡ sign_flags (option_map sign_of sign) }
    ensures small { result ≤ SIGN_MINUS }
{
    match sign {
        Some(FormatSign::Plus) => SIGN_PLUS,
        Some(FormatSign::Minus) => SIGN_MINUS,
        None => 0,
    }
}

fn debug_hex_flags(debug_hex: Option<FormatDebugHex>) -> u32
    ensures is { result ≡ debug_hex_flags (option_map debug_hex_of debug_hex) }
    ensures small { result ≤ DEBUG_UPPER_HEX }
{
    match debug_hex {
        Some(FormatDebugHex::Lower) => DEBUG_LOWER_HEX,
        Some(FormatDebugHex::Upper) => DEBUG_UPPER_HEX,
        None => 0,
    }
}

fn alignment_flags(alignment: Option<FormatAlignment>) -> u32
    ensures is { result ≡ alignment_flags (option_map alignment_of alignment) }
    ensures small { result ≤ ALIGN_UNKNOWN }
{
    match alignment {
        Some(FormatAlignment::Left) => ALIGN_LEFT,
        Some(FormatAlignment::Right) => ALIGN_RIGHT,
        Some(FormatAlignment::Center) => ALIGN_CENTER,
        None => ALIGN_UNKNOWN,
    }
}

/// The flags of a placeholder: its fill, and a bit or two for each other option.
pub(crate) fn flags_word(options: &FormatOptions) -> u32
    ensures word { result ≡ flags_word (options_of options.now) (is_given (count_of options.now.width)) (is_given (count_of options.now.precision)) }
    ensures fill { is_scalar (options_of options.now).fill ≡ true }
{
    options.fill.unwrap_or(' ') as u32
        + sign_flags(options.sign)
        + flag_if(options.alternate, ALTERNATE)
        + flag_if(options.zero_pad, ZERO_PAD)
        + debug_hex_flags(options.debug_hex)
        + flag_if(options.width.is_some(), HAS_WIDTH)
        + flag_if(options.precision.is_some(), HAS_PRECISION)
        + alignment_flags(options.alignment)
}
