// What became of a script, in numbers.
ghost use Rattle.std.specs.Prelude.{◌≡◌, min};
ghost use Rattle.c_host.specs.Told as tell;
ghost use Rattle.rules.specs.declared.answers.End.TheVariants.{Faulted};

use rules::{Closed, End, Fault, Named};
use script_refusals::Refused;

// How it ended: the numbers that `kind` may have.
const ACCEPTED: u32 = 0;

const REFUSED: u32 = 1;

const ENDED: u32 = 2;

const FAULTED: u32 = 3;

// the next print does not fit into the output slice
const FULL: u32 = 4;

const NO_HEAP: u32 = 5;

#[repr(C)]
#[derive(Clone, Copy)]
pub struct Answer {
    pub kind: u32,
    // of a refusal or a fault, with its place in the text
    pub number: u32,
    pub place: u32,
    // the function that a fault names: of the basis by its number, if `basis` is not 0, else a part of the text
    pub basis: u32,
    pub name: u32,
    pub name_size: u32,
    // of the whole run, its close among them
    pub steps: u32,
    pub bytes: u32,
    pub taken: u64,
    pub given_back: u64,
}

impl Answer {
    pub(crate) const ACCEPTED: Answer = Answer {
        kind: ACCEPTED,
        number: 0,
        place: 0,
        basis: 0,
        name: 0,
        name_size: 0,
        steps: 0,
        bytes: 0,
        taken: 0,
        given_back: 0,
    };

    pub(crate) const NO_MEMORY: Answer = Answer {
        kind: NO_HEAP,
        number: 0,
        place: 0,
        basis: 0,
        name: 0,
        name_size: 0,
        steps: 0,
        bytes: 0,
        taken: 0,
        given_back: 0,
    };

    pub(crate) fn refused(refused: Refused) -> Answer
        ensures { result ≡ tell.refused refused }
    {
        Answer {
            kind: REFUSED,
            number: u32::from(refused.refusal.number()),
            place: refused.place.min(u32::MAX as usize) as u32,
            ..Answer::ACCEPTED
        }
    }

    // A run that was closed, in what way it ended, and how many bytes it wrote.
    fn ended(kind: u32, bytes: u32, closed: Closed) -> Answer
        ensures { result ≡ tell.ended kind bytes closed.steps closed.taken closed.given_back }
    {
        Answer {
            kind,
            steps: closed.steps,
            bytes,
            taken: closed.taken,
            given_back: closed.given_back,
            ..Answer::ACCEPTED
        }
    }

    fn faulted(fault: Fault, bytes: u32, closed: Closed) -> Answer
        ensures { result ≡ tell.closed (Faulted fault) bytes closed.steps closed.taken closed.given_back }
    {
        let front = Answer {
            number: u32::from(fault.kind.number()),
            place: u32::from(fault.place),
            ..Answer::ended(FAULTED, bytes, closed)
        };
        match fault.function {
            Named::Basis(basis) => Answer {
                basis: 1,
                name: basis.number(),
                ..front
            },
            Named::Text(word) => Answer {
                name: u32::from(word.place),
                name_size: u32::from(word.size),
                ..front
            },
        }
    }

    // A run that was advanced to this end, having written so many bytes, and closed.
    pub(crate) fn closed(end: End, bytes: usize, closed: Closed) -> Answer
        ensures { result ≡ tell.closed end (min bytes 4294967295) closed.steps closed.taken closed.given_back }
    {
        let bytes = bytes.min(u32::MAX as usize) as u32;
        match end {
            End::Ended => Answer::ended(ENDED, bytes, closed),
            End::Faulted(fault) => Answer::faulted(fault, bytes, closed),
            End::OutputFull | End::Paused => Answer::ended(FULL, bytes, closed),
        }
    }
}
