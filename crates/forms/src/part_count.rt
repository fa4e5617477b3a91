// How many parts a list has, where that is known, in one byte: a table has one for each place of a text, and an option takes two.
ghost use Rattle.std.specs.Prelude.{◌≡◌, min, Some};
ghost use Rattle.forms.specs.Surveys.{told};

// Nought where nothing is known, else the number and one more; seven stands for more.
#[derive(Clone, Copy, Debug, PartialEq, Eq)]
pub(crate) struct PartCount {
    code: u8,
}

impl PartCount {
    pub(crate) const UNKNOWN: PartCount = PartCount { code: 0 };

    pub(crate) fn of(parts: u8) -> PartCount
        ensures { told result ≡ Some (min parts 7) }
    {
        PartCount {
            code: parts.min(7) + 1,
        }
    }

    // The number, where it is known.
    pub(crate) fn parts(self) -> Option<u8>
        ensures { result ≡ told self }
    {
        self.code.checked_sub(1)
    }
}
