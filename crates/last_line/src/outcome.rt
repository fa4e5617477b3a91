// What became of a script.
use rules::Fault;
use script_refusals::Refused;

#[derive(Clone, Copy)]
pub enum Outcome {
    // reading or checking refused it
    Refused(Refused),
    Faulted(Fault),
    // its run ended after so many steps
    Ended(u32),
}
