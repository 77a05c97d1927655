ghost use Rattle.std.specs.Prelude.{◌≡◌, ◌<◌, ◌++◌, true, OnOk, string_bytes, codes};
ghost use Rattle.std.specs.Fmt.{digit_glyph};
ghost use Rattle.hir_store.specs.Unfolding.{literal_tree};
ghost use Rattle.printer.specs.Printed.{hex_of, hex_pair, item_word, function_word, text_of};

use hir_store::{LangFn, LangItem, Literal};
use std::alloc::AllocError;

/// The word for a language item.
pub fn item_word(item: LangItem) -> &'static str
    ensures { result.now ≡ item_word item }
{
    match item {
        LangItem::FormatArguments => "Arguments",
        LangItem::FormatArgument => "Argument",
    }
}

/// The word for a function of a language item.
pub fn function_word(function: LangFn) -> &'static str
    ensures { result.now ≡ function_word function }
{
    match function {
        LangFn::New => "new",
        LangFn::FromStr => "from_str",
        LangFn::NewDisplay => "new_display",
        LangFn::NewDebug => "new_debug",
        LangFn::NewLowerExp => "new_lower_exp",
        LangFn::NewUpperExp => "new_upper_exp",
        LangFn::NewOctal => "new_octal",
        LangFn::NewPointer => "new_pointer",
        LangFn::NewBinary => "new_binary",
        LangFn::NewLowerHex => "new_lower_hex",
        LangFn::NewUpperHex => "new_upper_hex",
        LangFn::FromUsize => "from_usize",
    }
}

/// Writes a literal: its kind, and its bytes in hexadecimal digits between quotes.
pub fn push_literal(out: &mut String, literal: &Literal) -> Result<(), AllocError>
    ensures { OnOk result (string_bytes out.new ≡ string_bytes out.old ++ text_of (literal_tree literal.now)) }
{
    match literal {
        Literal::String(text) => {
            out.push_str("s\"")?;
            push_quoted(out, text.as_str().as_bytes())
        }
        Literal::ByteString(bytes) => {
            out.push_str("b\"")?;
            push_quoted(out, bytes.get().as_slice())
        }
    }
}

/// Writes bytes in hexadecimal digits, and the quote that closes them.
fn push_quoted(out: &mut String, bytes: &[u8]) -> Result<(), AllocError>
    ensures { OnOk result (string_bytes out.new ≡ string_bytes out.old ++ hex_of bytes.now ++ codes "\"") }
{
    push_hex(out, bytes)?;
    out.push_str("\"")
}

/// Writes each byte as two upper case hexadecimal digits.
fn push_hex(out: &mut String, bytes: &[u8]) -> Result<(), AllocError>
    ensures { OnOk result (string_bytes out.new ≡ string_bytes out.old ++ hex_of bytes.now) }
{
    for byte in bytes {
        push_byte(out, *byte)?;
    }
    Ok(())
}

/// The upper case hexadecimal digit of a number below 16.
fn hex_digit(number: u8) -> char
    requires { number < 16 }
    ensures { result ≡ digit_glyph true number }
{
    if number < 10 {
        (b'0' + number) as char
    } else {
        (b'A' - 10 + number) as char
    }
}

/// Writes a byte as two upper case hexadecimal digits.
fn push_byte(out: &mut String, byte: u8) -> Result<(), AllocError>
    ensures { OnOk result (string_bytes out.new ≡ string_bytes out.old ++ hex_pair byte) }
{
    out.push(hex_digit(byte / 16))?;
    out.push(hex_digit(byte % 16))
}
