ghost use Rattle.std.specs.Prelude.{◌≡◌, IfOk, string_bytes};
ghost use Rattle.jobs.specs.declared.stop.Stop.TheVariants.{File, Memory};
ghost use Rattle.jobs.specs.Stops.{Says};

use super::fault::Fault;
use super::lines::Line;
use std::alloc::{AllocError, Global};

// What stops a text about a file: the file's first fault, or that memory is refused.
#[derive(Clone, Copy, PartialEq, Eq, Debug)]
pub(crate) enum Stop {
    File(Fault),
    Memory(AllocError),
}

impl From<Fault> for Stop {
    ghost from_gives = { λ fault stop. stop ≡ File fault };

    fn from(fault: Fault) -> Stop {
        Stop::File(fault)
    }
}

impl From<AllocError> for Stop {
    ghost from_gives = { λ error stop. stop ≡ Memory error };

    fn from(error: AllocError) -> Stop {
        Stop::Memory(error)
    }
}

impl Stop {
    // The line of the fault, which then stands alone.
    pub(crate) fn line(self, heap: Global) -> Result<String, AllocError>
        ensures { IfOk result (λ t. Says self (string_bytes t)) }
    {
        match self {
            Stop::File(fault) => Line::File(fault).text(heap),
            Stop::Memory(error) => Err(error),
        }
    }
}
