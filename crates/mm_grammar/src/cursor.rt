ghost use Rattle.std.specs.Prelude.{◌≡◌, [], ◌∷◌, MatchOption, length};
ghost use Rattle.mm_lex.specs.Lexemes.{kind_by, span, lexeme_at};
ghost use Rattle.mm_grammar.specs.Seen.{seen};

use mm_lex::Token;

/// The tokens of a text that are still to be read.
#[derive(Clone, Copy)]
pub struct Tokens<'a> {
    /// The text.
    pub text: &'a [u8],
    /// Those of its tokens that are left.
    pub tokens: &'a [Token],
}

impl<'a> Tokens<'a> {
    /// How many tokens are left.
    pub fn len(self) -> usize
        ensures { result ≡ length (seen self.entry) }
    {
        self.tokens.len()
    }

    /// The first token and the others.
    pub fn split_first(self) -> Option<(Token, Tokens<'a>)>
        ensures { MatchOption result (seen self.entry ≡ []) (λ p. seen self.entry ≡ lexeme_at self.entry.text.now p.0 ∷ seen p.1) }
    {
        let (first, others) = self.tokens.split_first()?;
        Some((
            *first,
            Tokens {
                text: self.text,
                tokens: others,
            },
        ))
    }

    /// The bytes of a token.
    pub fn bytes(self, token: Token) -> &'a [u8]
        ensures { result.now ≡ span self.entry.text.now token.start token.stop }
    {
        let behind = self.text.get(token.start as usize..).unwrap_or(&[]);
        let len = token.stop.saturating_sub(token.start) as usize;
        behind.get(..len).unwrap_or(behind)
    }
}
