ghost use Rattle.syn_trees.specs.Literal.{IsLiteral};

/// A string token within a text: it was tested once, so [`StringLit::of_token`](crate::StringLit::of_token) makes a literal of it
/// without a second look.
#[derive(Clone, Copy, Drop)]
pub struct StrToken<'a> {
    /// The whole token, with its quotes.
    pub text: &'a str,
    /// What stands between its quotes, as written.
    pub inside: &'a str,
    ghost literal: { ∥ IsLiteral text.now ∥₁ },
}
