// Why reading refuses a script, and where. `script_refusals` has these and those of the check in an enum of its own: reading must not
// know the latter.
ghost use Rattle.std.specs.Prelude.{◌≡◌};
ghost use Rattle.text.specs.Refusals.{number_of};

// Each case with its number.
#[derive(Clone, Copy, Debug, PartialEq, Eq)]
pub enum Refusal {
    // a symbol that is not closed, or has a backslash before another byte than ' or a backslash: at its first quote
    Symbol = 1,
    // an integer outside 32 bits signed: at its first byte
    Integer = 2,
    // a closing bracket that does not match, at itself; or that is missing, at the text's length
    Bracket = 3,
    // a form by its head or its number of parts, or a token that cannot stand there: at its first byte
    Form = 4,
    // a limit passed: at what passes it
    Limit = 5,
    // the node list is shorter than the script needs: at the node that lacks an entry
    NodeList = 21,
}

impl Refusal {
    // A method and no conversion: by the project's rule the enum's definition shows the numbers, and a contract gives them.
    pub fn number(self) -> u8
        ensures { result ≡ number_of self }
    {
        self as u8
    }
}

// A refusal with its place, the offset from 0 of the byte that it is about.
#[derive(Clone, Copy, Debug, PartialEq, Eq)]
pub struct Refused {
    pub refusal: Refusal,
    pub place: usize,
}
