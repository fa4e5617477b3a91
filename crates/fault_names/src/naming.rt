// Names as parts of what the caller holds: nothing is copied.
ghost use Rattle.std.specs.Prelude.{◌≡◌};
ghost use Rattle.fault_names.specs.FaultNames.{name_in, name_of, IsFromItsSource};

use basis::names;
use names::part;
use rules::Named;

// A function's name as a part of one of two slices: of the list of the basis' names, or of the script's text.
pub fn name_in<'a>(basis_names: &'a [u8], text: &'a [u8], function: Named) -> &'a [u8]
    ensures name { result.now ≡ name_in basis_names.now text.now function }
    ensures part { IsFromItsSource basis_names.now text.now function result.now }
{
    match function {
        Named::Basis(basis) => basis::name_in(basis_names, basis),
        Named::Text(word) => part(text, word),
    }
}

// The same over the list of the basis' names as it is.
pub fn name_of(text: &[u8], function: Named) -> &[u8]
    ensures { result.now ≡ name_of text.now function }
{
    name_in(names(), text, function)
}
