// A line of the case file.
ghost use Rattle.std.specs.Prelude.{◌≡◌, ℕ, List, [], ◌∷◌, Some};

use super::answer::{Answer, Refused};

#[derive(Clone, Copy)]
pub(crate) enum Line<'f> {
    Skip,
    Group(&'f str),
    // so many times these bytes
    Text(usize, &'f str),
    Hex(&'f str),
    Ends(Answer),
    // a word that not every case file has, and the rest of the line
    Other(&'f str, &'f str),
}

// `N BYTES`
fn times(rest: &str) -> Option<Line<'_>> {
    let (count, bytes) = rest.split_once(' ')?;
    Some(Line::Text(count.parse::<usize>().ok()?, bytes))
}

// `NUMBER PLACE`
fn refused(rest: &str) -> Option<Refused> {
    let (number, place) = rest.split_once(' ')?;
    Some(Refused {
        number: number.parse::<u8>().ok()?,
        place: place.parse::<usize>().ok()?,
    })
}

// The line that begins with this word.
fn worded<'f>(word: &'f str, rest: &'f str) -> Option<Line<'f>> {
    match word {
        "group" => Some(Line::Group(rest)),
        "text" => Some(Line::Text(1, rest)),
        "times" => times(rest),
        "hex" => Some(Line::Hex(rest)),
        "accepted" => Some(Line::Ends(Ok(rest.parse::<usize>().ok()?))),
        "refused" => Some(Line::Ends(Err(refused(rest)?))),
        _ => Some(Line::Other(word, rest)),
    }
}

// What a line says; none where it can't be read.
pub(crate) fn parse_line(line: &str) -> Option<Line<'_>>
    ensures empty { line.now ≡ [] → result ≡ Some Line.Skip }
    ensures comment { (rest : List ℕ) → line.now ≡ 35 ∷ rest → result ≡ Some Line.Skip }
{
    if line.is_empty() || line.starts_with('#') {
        return Some(Line::Skip);
    }
    let (word, rest) = line.split_once(' ')?;
    worded(word, rest)
}
