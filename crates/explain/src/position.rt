// A place in a text as people count: by line and column.
ghost use Rattle.std.specs.Prelude.{◌≡◌};
ghost use Rattle.explain.specs.Lines.{line_of, column_of};

use super::lines::{before, newline_count, since_newline};

#[derive(Clone, Copy, Debug, PartialEq, Eq)]
pub struct Position {
    // from 1
    pub line: usize,
    // from 1, in bytes: a tab counts as one, and so does each byte of a letter that takes several
    pub column: usize,
}

#[tactic(auto, using(crate::proofs::LeadLaws::since_within))]
pub fn position_of(text: &[u8], place: usize) -> Position
    ensures line { result.line ≡ line_of text.now place }
    ensures column { result.column ≡ column_of text.now place }
{
    let front = before(text, place);
    Position {
        line: newline_count(front) + 1,
        column: since_newline(front) + 1,
    }
}
