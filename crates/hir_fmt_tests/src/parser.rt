ghost use Rattle.std.specs.Prelude.{◌≡◌, IfOk};
ghost use Rattle.hir_fmt.specs.declared.format_args.FormatArgumentKind.TheVariants.{Named};
ghost use Rattle.hir_fmt.specs.Arguments.{AreExplicit};

use either::{Left, Right};
use hir_fmt::{
    Captures, FormatArgPosition, FormatArgs, FormatArgsPiece, FormatArgument, FormatArgumentKind,
    FormatArgumentsCollector, FormatCount, ParseError, parse,
};
use hir_store::ExprId;
use la_arena::RawIdx;
use silent_captures::Silent;
use std::alloc::{AllocError, Global};
use std::fmt::Write;
use std::test::Fail;
use sym_core::{AstPtr, Name, Symbol, TextRange};
use syn_trees::StringLit;

// Notes what it is told, and numbers what it makes; where it is full, it makes nothing and gives 7 as its reason.
#[derive(Drop)]
struct Notes {
    alloc: Global,
    text: String,
    made: u32,
    is_full: bool,
}

impl Notes {
    fn new(alloc: Global, is_full: bool) -> Notes {
        Notes {
            alloc,
            text: String::new(alloc),
            made: 0,
            is_full,
        }
    }

    fn note(&mut self, what: &str, name: &Name, span: Option<TextRange>) -> Result<(), AllocError> {
        let place = match span {
            Some(range) => format!(in self.alloc; "{}..{}", range.start, range.end)?,
            None => String::from_str(self.alloc, "?")?,
        };
        let line = format!(in self.alloc; "{what}{name} {place} ")?;
        self.text.push_str(line.as_str())
    }
}

impl Captures for Notes {
    type Refused = u32;

    ghost use Rattle.std.specs.Prelude.{None, ⊤};

    ghost log = { λ notes. None };

    // The count stands at its last value, so it may refuse.
    ghost refusals = { λ notes. 18_446_744_073_709_551_615 };

    ghost allows = { λ notes reason. ⊤ };

    ghost grows = { λ old new. ⊤ };

    fn synth(&mut self, name: &Name, span: Option<TextRange>) -> Result<ExprId, u32> {
        if self.is_full {
            return Err(7);
        }
        if self.note("+", name, span).is_err() {
            return Err(0);
        }
        let raw = RawIdx::from_u32(self.made);
        self.made = self.made.saturating_add(1);
        Ok(ExprId { raw })
    }

    fn record_usage(&mut self, name: &Name, span: Option<TextRange>) -> Result<(), u32> {
        if self.note("", name, span).is_err() {
            return Err(0);
        }
        Ok(())
    }

    ghost grows_self = { λ a. tt };

    ghost grows_on = { λ a b c first more. tt };
}

// An argument with a name.
fn written(name: Name, node: u32) -> FormatArgument
    ensures { result.kind ≡ Named name }
{
    FormatArgument {
        kind: FormatArgumentKind::Named(name),
        expr: ExprId {
            raw: RawIdx::from_u32(node),
        },
        syntax: None,
    }
}

// The arguments with one more that is written, unless there is none to add.
fn with_written(
    alloc: Global,
    args: FormatArgumentsCollector,
    name: Option<&str>,
    node: u32,
) -> Result<FormatArgumentsCollector, AllocError>
    requires { AreExplicit args }
    ensures { IfOk result AreExplicit }
{
    let mut args = args;
    let Some(name) = name else {
        return Ok(args);
    };
    let name = Name::new(alloc, name)?;
    args.add(written(name, node))?;
    Ok(args)
}

fn position_text(alloc: Global, position: &FormatArgPosition) -> Result<String, AllocError> {
    match &position.index {
        Ok(place) => format!(in alloc; "{place}"),
        Err(Left(number)) => format!(in alloc; "?{number}"),
        Err(Right(name)) => format!(in alloc; "?{name}"),
    }
}

fn count_text(alloc: Global, count: &Option<FormatCount>) -> Result<String, AllocError> {
    match count {
        None => String::from_str(alloc, ""),
        Some(FormatCount::Literal(number)) => format!(in alloc; "{number}"),
        Some(FormatCount::Argument(position)) => position_text(alloc, position),
    }
}

fn piece_text(alloc: Global, piece: &FormatArgsPiece) -> Result<String, AllocError> {
    match piece {
        FormatArgsPiece::Literal(text) => format!(in alloc; "'{text}' "),
        FormatArgsPiece::Placeholder(placeholder) => {
            let argument = position_text(alloc, &placeholder.argument)?;
            let width = count_text(alloc, &placeholder.format_options.width)?;
            let precision = count_text(alloc, &placeholder.format_options.precision)?;
            format!(in alloc; "{argument}:{width}.{precision} ")
        }
    }
}

// The pieces, the names of the arguments with their places, and the orphans.
fn made_text(alloc: Global, made: &FormatArgs) -> Result<String, AllocError> {
    let mut text = String::new(alloc);
    for piece in made.template.as_slice() {
        text.push_str(piece_text(alloc, piece)?.as_str())?;
    }
    text.push_str("| ")?;
    for (name, place) in made.arguments.names.as_slice() {
        text.push_str(format!(in alloc; "{name}={place} ")?.as_str())?;
    }
    text.push_str("| ")?;
    for orphan in made.orphans.as_slice() {
        text.push_str(format!(in alloc; "{} ", orphan.raw.into_u32())?.as_str())?;
    }
    Ok(text)
}

// The literal of a token.
fn literal_of(alloc: Global, token: &str) -> Result<Option<StringLit>, AllocError> {
    Ok(StringLit::new(Symbol::new(alloc, token)?))
}

// What is told, and what is made, of a token with arguments of these names, whose expressions are 10 and 11.
fn parsed_text(
    alloc: Global,
    token: &str,
    is_direct: bool,
    names: (Option<&str>, Option<&str>),
) -> Result<String, AllocError> {
    let Some(s) = literal_of(alloc, token)? else {
        return String::from_str(alloc, "no token");
    };
    let args = FormatArgumentsCollector::new(alloc);
    let args = with_written(alloc, args, names.0, 10)?;
    let args = with_written(alloc, args, names.1, 11)?;
    let mut notes = Notes::new(alloc, false);
    let ptr = AstPtr { node: 1 };
    match parse(alloc, &s, ptr, args, is_direct, &mut notes) {
        Ok(made) => {
            let made = made_text(alloc, &made)?;
            format!(in alloc; "{}| {made}", notes.text)
        }
        Err(_) => String::from_str(alloc, "refused"),
    }
}

#[test]
fn looks_up_what_a_text_refers_to(rt: HostRuntime) -> Result<(), Fail> {
    let captures = "x 2..3 +x 2..3 p 8..9 +p 8..9 w 5..6 +w 5..6 | 0:2.1 | x=0 p=1 w=2 | ";
    let none = (None, None);
    let a = (Some("a"), None);
    let cases = [
        ("\"{x:>w$.p$}\"", true, none, captures),
        (
            "\"{a}\"",
            true,
            (Some("a"), Some("a")),
            "a 2..3 | 0:. | a=0 a=1 | 11 ",
        ),
        ("\"{0}\"", true, a, "| 0:. | a=0 | "),
        ("\"{0}\"", true, none, "| ?0:. | | "),
        ("\"{:.*}\"", true, a, "| ?1:.0 | a=0 | "),
        ("\"\\x41{x}\"", true, none, "x ? +x ? | 'A' 0:. | x=0 | "),
        (
            "r#\"{{{x}\"#",
            true,
            none,
            "x 6..7 +x 6..7 | '{' 0:. | x=0 | ",
        ),
        ("\"{a}{b}\"", false, a, "a ? | 0:. ?b:. | a=0 | "),
        ("\"{\"", true, a, "| | a=0 | "),
        ("\"\\q\"", true, a, "| | a=0 | "),
    ];
    for (token, is_direct, names, want) in cases {
        let text = parsed_text(rt.alloc(), token, is_direct, names)?;
        assert_eq!(rt; text.as_str(), want, "of {token}");
    }
    Ok(())
}

#[test]
fn passes_a_refusal_on(rt: HostRuntime) -> Result<(), Fail> {
    let alloc = rt.alloc();
    let s = literal_of(alloc, "\"{x}\"")?.expect(&rt, "a string token");
    let args = FormatArgumentsCollector::new(alloc);
    let mut notes = Notes::new(alloc, true);
    let made = parse(alloc, &s, AstPtr { node: 1 }, args, true, &mut notes);
    assert!(rt; matches!(made, Err(ParseError::Captures(7))));
    assert_eq!(rt; notes.text.as_str(), "x 2..3 ");
    Ok(())
}

#[test]
fn makes_the_template_of_a_call(rt: HostRuntime) -> Result<(), Fail> {
    let alloc = rt.alloc();
    let s = literal_of(alloc, "\"a{x:>w$}\"")?.expect(&rt, "a string token");
    let args = FormatArgumentsCollector::new(alloc);
    let mut captures = Notes::new(alloc, false);
    match parse(alloc, &s, AstPtr { node: 0 }, args, true, &mut captures) {
        Ok(made) => {
            assert_eq!(rt; made.template.len(), 2);
            assert_eq!(rt; made.arguments.names.len(), 2);
            assert_eq!(rt; made.arguments.num_explicit_args, 0);
            assert!(rt; made.orphans.is_empty());
        }
        Err(_) => panic!(rt; "memory is left"),
    }
    Ok(())
}

// The token of so many placeholders, each of a name of its own.
fn token_of_names(alloc: Global, count: u32) -> Result<String, AllocError> {
    let mut token = String::from_str(alloc, "\"")?;
    for number in 0..count {
        write!(token, "{{n{number}}}")?;
    }
    token.push_str("\"")?;
    Ok(token)
}

#[test]
fn captures_a_million_names(rt: HostRuntime) -> Result<(), Fail> {
    let alloc = rt.alloc();
    let token = token_of_names(alloc, 1_000_000)?;
    let s = literal_of(alloc, token.as_str())?.expect(&rt, "a string token");
    let args = FormatArgumentsCollector::new(alloc);
    let mut silent = Silent::new();
    match parse(alloc, &s, AstPtr { node: 1 }, args, true, &mut silent) {
        Ok(made) => {
            assert_eq!(rt; made.template.len(), 1_000_000);
            assert_eq!(rt; made.arguments.arguments.len(), 1_000_000);
            let last = Name::new(alloc, "n999999")?;
            let names = made.arguments.names.as_slice();
            assert!(rt;
                names
                    .last()
                    .is_some_and(|(name, place)| *name == last && *place == 999_999)
            );
            assert!(rt; made.orphans.is_empty());
        }
        Err(_) => panic!(rt; "memory is left"),
    }
    Ok(())
}
