ghost use Rattle.std.specs.Prelude.{◌≡◌};
ghost use Rattle.mm_forms.specs.Given.{Gives};
ghost use Rattle.mm_grammar.specs.Rules.{flag as flag_rule};
ghost use Rattle.mm_grammar.specs.Reading.{read};
ghost use Rattle.mm_grammar.specs.Seen.{seen};

use mm_forms::Stop;
use mm_grammar::cursor::Tokens;
use mm_grammar::pieces::{past_word, starts_word};
use mm_names::Word;

/// Whether the word stands here, and the tokens behind it.
pub fn flag<'a>(word: Word, tokens: Tokens<'a>) -> Result<(bool, Tokens<'a>), Stop>
    ensures { Gives (λ x. (x.0, seen x.1)) result (read (flag_rule word) (seen tokens.entry)) }
{
    if starts_word(word, tokens) {
        let rest = past_word(word, tokens)?;
        return Ok((true, rest));
    }
    Ok((false, tokens))
}
