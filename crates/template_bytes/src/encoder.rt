ghost use Rattle.std.specs.Prelude.{◌≡◌, ◌≢◌, ◌<◌, List, [], ◌∷◌, ◌++◌, length, IfOk, OnOk};
ghost use Rattle.hir_fmt.specs.declared.format_args.FormatArgsPiece.{FormatArgsPiece as Piece};
ghost use Rattle.template_bytes.specs.Canonical.{canonical_pieces};
ghost use Rattle.template_bytes.specs.Pairs.{pairs_of};
ghost use Rattle.template_bytes.specs.Spelling.{IsCanonical};
ghost use Rattle.template_bytes.specs.ShownPairs.{shown_pairs};
ghost use Rattle.template_bytes.specs.Encoder.{HasTaken, IsEncoded};

use crate::draft::Draft;
use crate::error::EncodeError;
use crate::pair::Pair;
use crate::pairs::Pairs;
use hir_fmt::{FormatArgsPiece, FormatPlaceholder};
use indexmap::IndexSet;
use std::alloc::Global;

/// A template as bytes, in the canonical spelling that docs/DEFINITIONS.md tells.
#[derive(Drop)]
pub struct EncodedTemplate {
    /// The template bytes.
    pub bytes: Vec<u8>,
    /// What the places in the bytes stand for: each pair of an argument and a use once, in the order of first use. `iter()` goes over
    /// them from place 0 on.
    pub pairs: IndexSet<Pair>,
}

// A template while its pieces are encoded.
#[derive(Drop)]
struct Encoder {
    pairs: Pairs,
    draft: Draft,
}

impl Encoder {
    // No piece yet, which takes no memory.
    fn new(alloc: Global) -> Encoder
        ensures { HasTaken result [] }
    {
        Encoder {
            pairs: Pairs::new(alloc),
            draft: Draft::new(alloc),
        }
    }

    // Adds a placeholder.
    fn push_placeholder(&mut self, placeholder: &FormatPlaceholder) -> Result<(), EncodeError>
        ensures taken { OnOk result ((pieces : List Piece) → HasTaken self.old pieces → HasTaken self.new (pieces ++ Piece.Placeholder placeholder.now ∷ [])) }
        ensures full { result ≡ Err EncodeError.TooManyPairs → (pieces : List Piece) → HasTaken self.old pieces → 4_294_967_296 < length (pairs_of (canonical_pieces (pieces ++ Piece.Placeholder placeholder.now ∷ []))) }
    {
        let slot = self.pairs.number(placeholder)?;
        self.draft.push_slot(slot)?;
        Ok(())
    }

    // Adds a piece.
    fn push(&mut self, piece: &FormatArgsPiece) -> Result<(), EncodeError>
        ensures taken { OnOk result ((pieces : List Piece) → HasTaken self.old pieces → HasTaken self.new (pieces ++ piece.now ∷ [])) }
        ensures full { result ≡ Err EncodeError.TooManyPairs → (pieces : List Piece) → HasTaken self.old pieces → 4_294_967_296 < length (pairs_of (canonical_pieces (pieces ++ piece.now ∷ []))) }
    {
        match piece {
            FormatArgsPiece::Literal(text) => {
                self.draft.push_text(text.as_str())?;
                Ok(())
            }
            FormatArgsPiece::Placeholder(placeholder) => self.push_placeholder(placeholder),
        }
    }

    // The whole template.
    fn finish(self) -> Result<EncodedTemplate, EncodeError>
        ensures encoded { IfOk result (λ made. (pieces : List Piece) → HasTaken self pieces → IsEncoded made pieces) }
        ensures room { result ≢ Err EncodeError.TooManyPairs }
    {
        let bytes = self.draft.finish()?;
        Ok(EncodedTemplate {
            bytes,
            pairs: self.pairs.into_set(),
        })
    }
}

/// Encodes a template: its bytes, and the pairs that the places in them stand for.
///
/// The bytes are the one canonical spelling of the template's canonical pieces; "Canonical spelling of template bytes" in
/// docs/DEFINITIONS.md tells how to write them by hand. So how the text was cut into literals, how a reference was spelled and where, and
/// which number or name no argument has make no difference.
///
/// ```
/// let call = parse(alloc, &literal, ptr, args, true, &mut captures)?;      // of the text `x{}y{{` and one argument
/// let made = encode(alloc, call.template.as_slice())?;
/// assert_eq!(made.bytes.as_slice(), b"\x01x\xC0\x02y{\x00");
/// let display = Usage::Trait(FormatTrait::Display);
/// for pair in made.pairs.iter() {
///     assert_eq!((pair.argument, pair.usage), (Some(0), display));
/// }
/// ```
///
/// # Errors
///
/// Returns an error if there is no memory, or if the template has more than 4,294,967,296 pairs.
pub fn encode(alloc: Global, template: &[FormatArgsPiece]) -> Result<EncodedTemplate, EncodeError>
    ensures bytes { IfOk result (λ made. IsCanonical made.bytes.items (canonical_pieces template.now)) }
    ensures pairs { IfOk result (λ made. shown_pairs made.pairs.keys ≡ pairs_of (canonical_pieces template.now)) }
    ensures full { result ≡ Err EncodeError.TooManyPairs → 4_294_967_296 < length (pairs_of (canonical_pieces template.now)) }
{
    let mut encoder = Encoder::new(alloc);
    for piece in template {
        encoder.push(piece)?;
    }
    encoder.finish()
}
