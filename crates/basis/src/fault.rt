// Why an arithmetic function of the basis has no answer.
ghost use Rattle.std.specs.Prelude.{◌≡◌};
ghost use Rattle.basis.specs.Faults.{fault_number};

// Each case with its number.
#[derive(Clone, Copy, PartialEq, Eq)]
pub enum ArithmeticFault {
    // a division or a remainder by 0
    ZeroDivisor = 32,
    // a shift by an amount outside 0 to 31
    BadShift = 33,
}

impl ArithmeticFault {
    // A method and no conversion: by the project's rule the enum's definition shows the numbers, and a contract gives them.
    pub fn number(self) -> u8
        ensures { result ≡ fault_number self }
    {
        self as u8
    }
}
