ghost use Rattle.std.specs.Prelude.{◌≡◌, ℕ, List};
ghost use Rattle.mm_lex.specs.declared.token.Token.{Token};
ghost use Rattle.mm_lex.specs.Lexemes.{LexemeKind, lexemes};
ghost use Rattle.mm_lex.specs.Tokens.{AreTokensOf};
ghost use Rattle.mm_ast.specs.declared.items.Ast.{Ast};
ghost use Rattle.mm_grammar.specs.Reading.{IsText};
ghost use Rattle.mm_print.specs.Printing.{IsCanonical, ReadsBack, Spell};
ghost use Rattle.mm_shape.specs.Shapes.{AllTokens, kinds_of};
ghost use Rattle.mm_print.specs.Canonical.{NoneJoin, ReadsAs, canonical};

/// The canonical text of tokens of which none joins with the next has these tokens.
pub fn reads_as()
    ensures { (kinds : List LexemeKind) → AllTokens kinds → NoneJoin kinds → ReadsAs kinds (canonical kinds) }
{}

/// The canonical text of the tokens of a text of the language has the same tokens.
pub fn text_reads_as()
    ensures { (text : List ℕ) (tokens : List Token) (tree : Ast) → AreTokensOf text tokens → IsText tree (lexemes text tokens) → ReadsAs (kinds_of (lexemes text tokens)) (canonical (kinds_of (lexemes text tokens))) }
{}

/// A canonical text is the canonical text of its tokens.
pub fn canonical_again()
    ensures { (kinds : List LexemeKind) (tokens : List Token) → AllTokens kinds → NoneJoin kinds → AreTokensOf (canonical kinds) tokens → canonical (kinds_of (lexemes (canonical kinds) tokens)) ≡ canonical kinds }
{}

/// Tokens of a text spell its tree.
pub fn text_spells()
    ensures { (text : List ℕ) (tokens : List Token) (tree : Ast) → AreTokensOf text tokens → IsText tree (lexemes text tokens) → Spell tree (kinds_of (lexemes text tokens)) }
{}

/// A tree has one canonical text at most.
pub fn one_canonical()
    ensures { (tree : Ast) (a b : List ℕ) → IsCanonical tree a → IsCanonical tree b → a ≡ b }
{}

/// The canonical text of a tree is read as a tree of the same shape, of which it is the canonical text too: printing what
/// was printed gives the same bytes.
pub fn reads_back()
    ensures { (tree : Ast) (text : List ℕ) → IsCanonical tree text → ReadsBack tree text }
{}
