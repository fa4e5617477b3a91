// Whether what is found of a text is what its case expects.
ghost use Rattle.std.specs.Prelude.{◌↔◌, IsTrue};
ghost use Rattle.case_files.specs.Agreeing.{Agrees, Lists};

use super::answer::Answer;
use super::trial::Found;

// A case without a listing takes any.
fn lists(found: &str, expected: &str) -> bool
    ensures { IsTrue result ↔ Lists found.now expected.now }
{
    if expected.is_empty() {
        return true;
    }
    expected == found
}

// The answer is the expected one, the listing too where the case has one, and nothing is wrong besides.
pub(crate) fn agrees(found: &Found, expected: Answer, listing: &str) -> bool
    ensures { IsTrue result ↔ Agrees found.now expected listing.now }
{
    found.answer == expected && lists(found.listing.as_str(), listing) && found.complaint.is_none()
}
