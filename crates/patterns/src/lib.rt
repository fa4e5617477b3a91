// A branch's pattern, as it stands in the text.
#![tactic(auto)]

mod head;
mod part;
mod reading;

pub use head::Head;
pub use part::Part;
pub use reading::{head_at, next_part};
