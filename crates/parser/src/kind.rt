// What a list is as a definition, by its head and its number of parts.
ghost use Rattle.std.specs.Prelude.{◌≡◌};
ghost use Rattle.parser.specs.Defining.{definition_kind};

use forms::Survey;
use text::Keyword;

#[derive(Clone, Copy, PartialEq, Eq)]
pub enum DefinitionKind {
    Datatype,
    Annotation,
    Define,
    Val,
}

// The kind of a list as a definition, or none where it is no definition.
pub(crate) fn definition_of(seen: Survey) -> Option<DefinitionKind>
    ensures { result ≡ definition_kind seen.head seen.parts }
{
    match seen.head {
        Some(Keyword::Datatype) if seen.parts == 3 => Some(DefinitionKind::Datatype),
        Some(Keyword::Colon) if seen.parts == 3 => Some(DefinitionKind::Annotation),
        Some(Keyword::Define) if seen.parts == 4 => Some(DefinitionKind::Define),
        Some(Keyword::Val) if seen.parts == 3 => Some(DefinitionKind::Val),
        _ => None,
    }
}
