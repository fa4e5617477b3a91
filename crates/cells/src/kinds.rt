ghost use Rattle.std.specs.Prelude.{◌≡◌, MatchResult, Some, None};
ghost use Rattle.cells.specs.Kinds.{kind_number, kind_at};

// What a value is. The numbers stand for the kinds wherever a format writes them.
#[derive(Clone, Copy, Debug, PartialEq, Eq)]
pub enum Kind {
    Int = 0,
    Bool = 1,
    Sym = 2,
    Unit = 3,
    Function = 4,
    Cell = 5,
}

// A number that is that of no kind.
#[derive(Clone, Copy, Debug, PartialEq, Eq)]
pub struct UnknownKind(pub u8);

impl Kind {
    // The kind's number, 0 to 5.
    // A method and no conversion: by the project's rule the enum's definition shows the numbers, and a contract gives them.
    pub fn number(self) -> u8
        ensures { result ≡ kind_number self }
    {
        self as u8
    }
}

// The kind with this number; refuses each number from 6 on.
impl TryFrom<u8> for Kind {
    type Error = UnknownKind;

    ghost try_from_gives = { λ number r. MatchResult r (λ kind. kind_at number ≡ Some kind) (λ unknown. (kind_at number ≡ None) × (unknown.0 ≡ number)) };

    fn try_from(number: u8) -> Result<Kind, UnknownKind> {
        match number {
            0 => Ok(Kind::Int),
            1 => Ok(Kind::Bool),
            2 => Ok(Kind::Sym),
            3 => Ok(Kind::Unit),
            4 => Ok(Kind::Function),
            5 => Ok(Kind::Cell),
            _ => Err(UnknownKind(number)),
        }
    }
}
