ghost use Rattle.std.specs.Prelude.{List};
ghost use Rattle.mm_lex.specs.Lexemes.{Lexeme};
ghost use Rattle.mm_ast.specs.declared.items.Ast.{Ast};
ghost use Rattle.mm_grammar.specs.Reading.{IsText};
ghost use Rattle.mm_shape.specs.Shapes.{IsSpelled, SameShape, kinds_of};

/// Tokens that spell a tree do so by their kinds.
pub fn tree_is_spelled()
    ensures { (tree : Ast) (tokens : List Lexeme) → IsText tree tokens → IsSpelled tree (kinds_of tokens) }
{}

/// Where tokens spell a tree wherever they stand, they spell a tree of the same shape where they do stand.
pub fn spelled_again()
    ensures { (tree : Ast) (tokens : List Lexeme) → IsSpelled tree (kinds_of tokens) → (other : Ast) × IsText other tokens × SameShape tree other }
{}
