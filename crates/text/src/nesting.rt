// Which brackets are open.
ghost use Rattle.std.specs.Prelude.{◌≡◌, [], length};
ghost use Rattle.stack.specs.Items.{tops, room_of};
ghost use Rattle.text.specs.Scans.{nesting, Nests};

use super::limits::OPEN;
use super::{Bracket, Refusal, TokenKind};
use stack::Stack;

// The open brackets, the newest on top, with room for as many as may be open at one time.
#[derive(Drop)]
pub(crate) struct OpenBrackets<'a> {
    shapes: Stack<'a, Bracket>,
    ghost room: { room_of shapes ≡ 64 },
}

impl<'a> OpenBrackets<'a> {
    // No bracket is open.
    pub(crate) fn new(room: &'a mut [Bracket; OPEN]) -> OpenBrackets<'a>
        ensures { tops result.shapes ≡ [] }
    {
        OpenBrackets {
            shapes: Stack::new(room),
        }
    }

    // How many are open.
    pub(crate) fn len(&self) -> usize
        ensures { result ≡ length (tops self.now.shapes) }
    {
        self.shapes.len()
    }

    fn open(&mut self, shape: Bracket) -> Result<(), Refusal>
        ensures { Nests (nesting (TokenKind.Open shape) (tops self.old.shapes)) result (tops self.new.shapes) }
    {
        self.shapes.push(shape).map_err(|_| Refusal::Limit)
    }

    fn close(&mut self, shape: Bracket) -> Result<(), Refusal>
        ensures { Nests (nesting (TokenKind.Close shape) (tops self.old.shapes)) result (tops self.new.shapes) }
    {
        match self.shapes.pop() {
            Some(newest) if newest == shape => Ok(()),
            _ => Err(Refusal::Bracket),
        }
    }

    // The brackets open after a token of this kind.
    pub(crate) fn after(&mut self, kind: TokenKind) -> Result<(), Refusal>
        ensures { Nests (nesting kind (tops self.old.shapes)) result (tops self.new.shapes) }
    {
        match kind {
            TokenKind::Open(shape) => self.open(shape),
            TokenKind::Close(shape) => self.close(shape),
            _ => Ok(()),
        }
    }
}
