ghost use Rattle.std.specs.Prelude.{◌≡◌};
ghost use Rattle.script_refusals.specs.Refusals.{number_of, read_as};
ghost use Rattle.text.specs.Refusals as reading;

// Each case with its number.
#[derive(Clone, Copy, PartialEq, Eq)]
pub enum Refusal {
    // a symbol that is not closed, or has a backslash before another byte than ' or a backslash: at its first quote
    Symbol = 1,
    // an integer outside 32 bits signed: at its first byte
    Integer = 2,
    // a closing bracket that does not match, at itself; or that is missing, at the text's length
    Bracket = 3,
    // a form by its head or its number of parts, or a token that cannot stand there: at its first byte
    Form = 4,
    // a limit passed: at what passes it
    Limit = 5,
    // a name that is bound or annotated twice, at the later one, or a local name that is not fresh
    Repeated = 6,
    // a name that nothing binds: at the name
    Unknown = 7,
    // a define without an annotation, or an annotation without a define: at its name
    Unpaired = 8,
    // types or numbers of parts that do not fit: at the form whose own rule fails
    Mismatch = 9,
    // a local name that is consumed already: at the name
    Consumed = 10,
    // no define `main` without parameters and with the result unit: at 0
    NoMain = 11,
    // the node list is shorter than the script needs: at the node that lacks an entry
    NodeList = 21,
    // the text or the node list is not what was read: at 0
    Changed = 23,
}

impl Refusal {
    // A method and no conversion: by the project's rule the enum's definition shows the numbers, and a contract gives them.
    pub fn number(self) -> u8
        ensures { result ≡ number_of self }
    {
        self as u8
    }
}

// A refusal with its place, the offset from 0 of the byte that it is about.
// A type beside the one of reading, and none generic over the refusal: contracts write either as a record of its own fields, which is plainer.
#[derive(Clone, Copy, PartialEq, Eq)]
pub struct Refused {
    pub refusal: Refusal,
    pub place: usize,
}

// A refusal of reading keeps its number.
impl From<text::Refusal> for Refusal {
    ghost from_gives = { λ e r. (r ≡ read_as e) × (number_of r ≡ reading.number_of e) };

    fn from(refusal: text::Refusal) -> Refusal {
        match refusal {
            text::Refusal::Symbol => Refusal::Symbol,
            text::Refusal::Integer => Refusal::Integer,
            text::Refusal::Bracket => Refusal::Bracket,
            text::Refusal::Form => Refusal::Form,
            text::Refusal::Limit => Refusal::Limit,
            text::Refusal::NodeList => Refusal::NodeList,
        }
    }
}

// It keeps its place as well.
impl From<text::Refused> for Refused {
    ghost from_gives = { λ e r. (r.refusal ≡ read_as e.refusal) × (number_of r.refusal ≡ reading.number_of e.refusal) × (r.place ≡ e.place) };

    fn from(refused: text::Refused) -> Refused {
        Refused {
            refusal: Refusal::from(refused.refusal),
            place: refused.place,
        }
    }
}
