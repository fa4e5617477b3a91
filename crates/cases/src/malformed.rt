// Where a file is no sequence of cases.
ghost use Rattle.std.specs.Prelude.{◌≡◌, ◌-◌, length};
ghost use Rattle.explain.specs.Lines.{line_of, column_of};

use explain::{Position, position_of};

#[derive(Clone, Copy, PartialEq, Eq)]
pub struct Malformed {
    // how many bytes of the file are left there
    pub left: usize,
}

impl Malformed {
    // The line and the column, in the whole file.
    pub fn position(self, file: &[u8]) -> Position
        ensures line { result.line ≡ line_of file.now (length file.now - self.left) }
        ensures column { result.column ≡ column_of file.now (length file.now - self.left) }
    {
        position_of(file, file.len().saturating_sub(self.left))
    }
}
