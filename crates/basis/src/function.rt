// The 33 functions of the initial basis, each with its number.
ghost use Rattle.std.specs.Prelude.{◌≡◌, Some};
ghost use Rattle.basis.specs.Numbers.{number_of, numbered, FromNumber};

#[derive(Clone, Copy, PartialEq, Eq)]
pub enum Basis {
    EqualInt = 0,
    EqualBool = 1,
    EqualSym = 2,
    EqualUnit = 3,
    Add = 4,
    Subtract = 5,
    Multiply = 6,
    Divide = 7,
    Remainder = 8,
    UnsignedDivide = 9,
    UnsignedRemainder = 10,
    Negate = 11,
    Greater = 12,
    Less = 13,
    GreaterOrEqual = 14,
    LessOrEqual = 15,
    Not = 16,
    And = 17,
    Or = 18,
    Xor = 19,
    BitAnd = 20,
    BitOr = 21,
    BitXor = 22,
    ShiftLeft = 23,
    ShiftRight = 24,
    Complement = 25,
    PrintInt = 26,
    PrintBool = 27,
    PrintSym = 28,
    PrintUnit = 29,
    PrintNewline = 30,
    PrintAscii = 31,
    Input = 32,
}

impl Basis {
    // How many there are: the functions of a script are numbered from here on.
    pub const COUNT: u32 = 33;

    // A method and no conversion: by the project's rule the enum's definition shows the numbers, and a contract gives them.
    pub fn number(self) -> u32
        ensures value { result ≡ number_of self }
        ensures back { numbered result ≡ Some self }
    {
        self as u32
    }
}

// A number that no function has.
#[derive(Clone, Copy, PartialEq, Eq)]
pub struct UnknownFunction(pub u32);

// The function with this number.
impl TryFrom<u32> for Basis {
    type Error = UnknownFunction;

    ghost try_from_gives = { FromNumber };

    fn try_from(n: u32) -> Result<Self, UnknownFunction> {
        match n {
            0 => Ok(Basis::EqualInt),
            1 => Ok(Basis::EqualBool),
            2 => Ok(Basis::EqualSym),
            3 => Ok(Basis::EqualUnit),
            4 => Ok(Basis::Add),
            5 => Ok(Basis::Subtract),
            6 => Ok(Basis::Multiply),
            7 => Ok(Basis::Divide),
            8 => Ok(Basis::Remainder),
            9 => Ok(Basis::UnsignedDivide),
            10 => Ok(Basis::UnsignedRemainder),
            11 => Ok(Basis::Negate),
            12 => Ok(Basis::Greater),
            13 => Ok(Basis::Less),
            14 => Ok(Basis::GreaterOrEqual),
            15 => Ok(Basis::LessOrEqual),
            16 => Ok(Basis::Not),
            17 => Ok(Basis::And),
            18 => Ok(Basis::Or),
            19 => Ok(Basis::Xor),
            20 => Ok(Basis::BitAnd),
            21 => Ok(Basis::BitOr),
            22 => Ok(Basis::BitXor),
            23 => Ok(Basis::ShiftLeft),
            24 => Ok(Basis::ShiftRight),
            25 => Ok(Basis::Complement),
            26 => Ok(Basis::PrintInt),
            27 => Ok(Basis::PrintBool),
            28 => Ok(Basis::PrintSym),
            29 => Ok(Basis::PrintUnit),
            30 => Ok(Basis::PrintNewline),
            31 => Ok(Basis::PrintAscii),
            32 => Ok(Basis::Input),
            33.. => Err(UnknownFunction(n)),
        }
    }
}
