// What a list is as an expression, by its head and its number of parts.
ghost use Rattle.std.specs.Prelude.{◌≡◌};
ghost use Rattle.forms.specs.Kinds.{kind_headed, form_kind};

use super::survey::Survey;
use text::Keyword;

#[derive(Clone, Copy, PartialEq, Eq)]
pub enum FormKind {
    If,
    Begin,
    Let,
    Case,
    Dup,
    Apply,
}

// A list of so many parts with a reserved word at its head.
fn headed_kind(head: Keyword, parts: usize) -> Option<FormKind>
    ensures { result ≡ kind_headed head parts }
{
    match head {
        Keyword::If if parts == 4 => Some(FormKind::If),
        Keyword::Begin if parts > 1 => Some(FormKind::Begin),
        Keyword::Let if parts == 3 => Some(FormKind::Let),
        Keyword::Case if parts > 2 => Some(FormKind::Case),
        Keyword::Dup if parts == 2 => Some(FormKind::Dup),
        Keyword::Unit | Keyword::True | Keyword::False => Some(FormKind::Apply),
        _ => None,
    }
}

// The form of a list as an expression, or none where it is no expression.
pub(crate) fn form_of(seen: Survey) -> Option<FormKind>
    ensures { result ≡ form_kind seen.head seen.parts }
{
    match seen.head {
        Some(head) => headed_kind(head, seen.parts),
        None => (seen.parts > 0).then_some(FormKind::Apply),
    }
}
