// What a case expects of a text, and what is found of it.
ghost use Rattle.std.specs.Prelude.{◌≡◌};
ghost use Rattle.text.specs.Refusals.{number_of};

// A refusal by its number, as the file writes it and whatever crate refuses, and its place.
#[derive(Clone, Copy, Debug, PartialEq, Eq)]
pub struct Refused {
    pub number: u8,
    pub place: usize,
}

// How much an accepted text has, or its refusal.
pub type Answer = Result<usize, Refused>;

// A refusal of reading keeps its number and its place.
impl From<text::Refused> for Refused {
    ghost from_gives = { λ e r. (r.number ≡ number_of e.refusal) × (r.place ≡ e.place) };

    fn from(refused: text::Refused) -> Refused {
        Refused {
            number: refused.refusal.number(),
            place: refused.place,
        }
    }
}
