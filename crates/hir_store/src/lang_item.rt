/// A type of the formatting machinery that lowered code names by what it is for, not by its path.
#[derive(Clone, Copy, Debug, PartialEq, Eq, Hash)]
pub enum LangItem {
    /// `core::fmt::Arguments`: a template with its arguments.
    FormatArguments,
    /// `core::fmt::rt::Argument`: one argument with the way in which it is used.
    FormatArgument,
}

/// Which language items there are to lower to.
#[derive(Clone, Copy, Debug, PartialEq, Eq)]
pub struct LangItems {
    /// Whether there is a [`LangItem::FormatArguments`].
    pub format_arguments: bool,
    /// Whether there is a [`LangItem::FormatArgument`].
    pub format_argument: bool,
}

/// An associated function of a language item.
#[derive(Clone, Copy, Debug, PartialEq, Eq, Hash)]
pub enum LangFn {
    /// `Arguments::new`, on template bytes and an array of arguments.
    New,
    /// `Arguments::from_str`, on a text without placeholders.
    FromStr,
    /// `Argument::new_display`, for `{}`.
    NewDisplay,
    /// `Argument::new_debug`, for `{:?}`.
    NewDebug,
    /// `Argument::new_lower_exp`, for `{:e}`.
    NewLowerExp,
    /// `Argument::new_upper_exp`, for `{:E}`.
    NewUpperExp,
    /// `Argument::new_octal`, for `{:o}`.
    NewOctal,
    /// `Argument::new_pointer`, for `{:p}`.
    NewPointer,
    /// `Argument::new_binary`, for `{:b}`.
    NewBinary,
    /// `Argument::new_lower_hex`, for `{:x}`.
    NewLowerHex,
    /// `Argument::new_upper_hex`, for `{:X}`.
    NewUpperHex,
    /// `Argument::from_usize`, for a width or a precision that an argument gives.
    FromUsize,
}
