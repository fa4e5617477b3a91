// Reading and checking one after the other.
use checking::{Checked, check};
use layout::Node;
use parser::read;
use script_refusals::Refused;

pub fn judge<'t>(text: &'t [u8], nodes: &mut [Node]) -> Result<Checked<'t>, Refused> {
    let script = read(text, nodes)?;
    check(&script, text, nodes)
}
