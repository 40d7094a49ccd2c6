ghost use Rattle.std.specs.Prelude.{◌≡◌, ℕ, List, All};
ghost use Rattle.mm_lex.specs.declared.text_fault.TextRule.{TextRule};
ghost use Rattle.mm_lex.specs.declared.token.Token.{Token};
ghost use Rattle.mm_lex.specs.Lexemes.{lexemes};
ghost use Rattle.mm_lex.specs.Positions.{text_start};
ghost use Rattle.mm_lex.specs.Tokens.{AreTokensOf, IsLexeme, IsLexicalFault, lexemes_from};

/// A text has one list of tokens.
pub fn one_reading()
    ensures { (text : List ℕ) (a b : List Token) → AreTokensOf text a → AreTokensOf text b → a ≡ b }
{}

/// A text has one first fault.
pub fn one_lexical_fault()
    ensures { (text : List ℕ) (r s : TextRule) (line column line' column' : ℕ) →
        IsLexicalFault text r line column → IsLexicalFault text s line' column' →
        (r ≡ s) × (line ≡ line') × (column ≡ column') }
{}

/// No text has tokens and a fault.
pub fn tokens_or_fault()
    ensures { (text : List ℕ) (tokens : List Token) (rule : TextRule) (line column : ℕ) →
        AreTokensOf text tokens → IsLexicalFault text rule line column → ⊥ }
{}

/// The bytes of each token spell it: the lexemes of a text are the tokens among its pieces.
pub fn tokens_spell()
    ensures are { (text : List ℕ) (tokens : List Token) → (are : AreTokensOf text tokens) →
        lexemes text tokens ≡ lexemes_from text_start are.read.pieces }
    ensures each { (text : List ℕ) (tokens : List Token) → AreTokensOf text tokens →
        All IsLexeme (lexemes text tokens) }
{}
