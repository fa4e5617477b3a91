// What a script declares, for the whole of it: what each global name means, the types of its functions and constructors, and the rules that
// are judged before any body.
#![tactic(auto)]

mod declarations;
mod declaring;
mod define_types;
mod global;
mod naming;
mod pairing;
mod refusing;
mod resolving;
mod tables;
mod variant;
mod whole;

pub use declarations::Declarations;
pub use define_types::DefineTypes;
pub use global::Global;
pub use refusing::refused;
pub use tables::definitions;
pub use variant::Variant;
pub use whole::Globals;
