// What a word is: an integer, a reserved word or a name.
ghost use Rattle.std.specs.Prelude.{◌≡◌};
ghost use Rattle.text.specs.Words.{kind_of_word};

use super::integer::integer_of;
use super::keyword::keyword_of;
use super::limits::NAME;
use super::{Refusal, TokenKind};

pub(crate) fn word_kind(word: &[u8]) -> Result<TokenKind, Refusal>
    ensures { result ≡ kind_of_word word.now }
{
    if let Some(n) = integer_of(word)? {
        return Ok(TokenKind::Integer(n));
    }
    if let Some(k) = keyword_of(word) {
        return Ok(TokenKind::Keyword(k));
    }
    if word.len() > NAME {
        return Err(Refusal::Limit);
    }
    Ok(TokenKind::Name)
}
