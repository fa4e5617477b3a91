// A reader over the script's bytes, with its place.
ghost use Rattle.std.specs.Prelude.{◌≤◌, length};

mod next;

#[derive(Drop)]
pub struct Reader<'t> {
    text: &'t [u8],
    place: usize,
    ghost within: { place ≤ length text.now },
}
