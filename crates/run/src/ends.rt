// How an advance ends.
ghost use Rattle.run.specs.Insides.{Failed, Settled};

use super::faults::fault_at;
use super::runs::{Run, is_over};
use super::stretches::Stop;
use basis::Basis;
use machine::Halt;
use rules::{End, FaultKind};

impl<'a, 'v> Run<'a, 'v> {
    // The run has this fault from now on.
    fn fail(&mut self, kind: FaultKind, function: Option<Basis>) -> End
        ensures { Failed self.old kind function result self.new }
    {
        let fault = fault_at(&self.machine, kind, function);
        self.fault = Some(fault);
        End::Faulted(fault)
    }

    // By why no further step is taken, and whether as many are taken as were asked for. A run that has ended is told before that, and an
    // allowance that is spent after it.
    pub(crate) fn end_by(&mut self, stop: Stop, counted: bool) -> End
        ensures { Settled self.old stop counted result self.new }
    {
        match stop {
            Stop::Halted(halt) => match halt {
                Halt::OutputFull => End::OutputFull,
                Halt::Failed(kind, function) => self.fail(kind, function),
            },
            Stop::Rested if is_over(&self.machine) => End::Ended,
            Stop::Rested if counted => End::Paused,
            Stop::Rested => self.fail(FaultKind::AllowanceSpent, None),
        }
    }
}
