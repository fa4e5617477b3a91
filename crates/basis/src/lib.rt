// The functions of the initial basis: their numbers, names and types, what each answers, and what each prints.
#![tactic(auto)]

mod applied;
mod arithmetic;
mod basis_type;
mod calls;
mod decimal;
mod fault;
mod function;
mod naming;
mod output;
mod parameters;
mod plain;
mod print;
mod printing;
mod span;
mod symbol;
mod types;

pub use applied::Applied;
pub use basis_type::BasisType;
pub use calls::{apply_none, apply_one, apply_two};
pub use decimal::{decimal_len, write_decimal};
pub use fault::ArithmeticFault;
pub use function::{Basis, UnknownFunction};
pub use naming::{find, name_in, name_of, names, span_of};
pub use parameters::Parameters;
pub use plain::Plain;
pub use print::Print;
pub use printing::{print_len, write_print};
pub use span::Span;
pub use symbol::{symbol_len, write_symbol};
pub use types::{parameters_of, result_of};
