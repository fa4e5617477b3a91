// The text of a symbol, from the place of its literal.
ghost use Rattle.std.specs.Prelude.{◌≡◌, List, ℕ};
ghost use Rattle.calling.specs.Applying.{Says};
ghost use Rattle.grammar.specs.Reading.{unquoted};
ghost use Rattle.layout.specs.Spelling.{Quotes};
ghost use Rattle.program.specs.Programs.{Program};
ghost use Rattle.rules.specs.Steps.{symbol_body};

use basis::Print;
use text::Reader;

// The bytes between the quotes of a literal.
fn between(literal: &[u8]) -> &[u8]
    ensures { result.now ≡ unquoted literal.now }
{
    match literal {
        [_, inner @ .., _] => inner,
        _ => &[],
    }
}

// The bytes between the quotes of the literal at this place.
fn quoted_at(text: &[u8], place: usize) -> &[u8]
    ensures { (bytes : List ℕ) → Quotes text.now place bytes → result.now ≡ bytes }
{
    let mut reader = Reader::at(text, place);
    match reader.next() {
        Ok(Some(token)) => between(token.bytes),
        _ => &[],
    }
}

// What stands between the quotes of the symbol that is printed.
pub fn body_of(text: &[u8], print: Print) -> &[u8]
    ensures { (P : Program) → Says P text.now print → result.now ≡ symbol_body P.literals print }
{
    match print {
        Print::Sym(number) => quoted_at(text, number as usize),
        _ => &[],
    }
}
