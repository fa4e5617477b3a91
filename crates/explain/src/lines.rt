// The parts of a text's lines, and how far they go.
ghost use Rattle.std.specs.Prelude.{◌≡◌, length, take};
ghost use Rattle.explain.specs.Lines.{newlines, newline_since, newline_until, leading_line, line_start, lead_of, around_line};

// How many newlines there are.
pub fn newline_count(s: &[u8]) -> usize
    ensures { result ≡ newlines s.now }
{
    s.iter().filter(|b| **b == b'\n').count()
}

// How many bytes follow the last newline.
pub fn since_newline(s: &[u8]) -> usize
    ensures { result ≡ newline_since s.now }
{
    s.iter().rev().take_while(|b| **b != b'\n').count()
}

// How many bytes stand before the first newline.
fn until_newline(s: &[u8]) -> usize
    ensures { result ≡ newline_until s.now }
{
    s.iter().take_while(|b| **b != b'\n').count()
}

// What stands before the first newline.
fn first_line(s: &[u8]) -> &[u8]
    ensures { result.now ≡ leading_line s.now }
{
    let end = until_newline(s);
    &s[..end]
}

// What stands before the place; the whole text where the place lies past its end.
pub fn before(text: &[u8], place: usize) -> &[u8]
    ensures { result.now ≡ take place text.now }
{
    &text[..place.min(text.len())]
}

// Where the line of the place begins.
#[tactic(auto, using(crate::proofs::LeadLaws::since_within))]
fn line_start(text: &[u8], place: usize) -> usize
    ensures { result ≡ line_start text.now place }
{
    let front = before(text, place);
    front.len() - since_newline(front)
}

// What stands before the place on its line.
pub fn lead(text: &[u8], place: usize) -> &[u8]
    ensures { result.now ≡ lead_of text.now place }
{
    let start = line_start(text, place);
    &before(text, place)[start..]
}

// The line around the place, without its newline. It begins with what stands before the place there, so that a mark can stand under it.
pub fn line_around(text: &[u8], place: usize) -> &[u8]
    ensures value { result.now ≡ around_line text.now place }
    ensures begins { take (length (lead_of text.now place)) result.now ≡ lead_of text.now place }
{
    let start = line_start(text, place);
    first_line(&text[start..])
}
