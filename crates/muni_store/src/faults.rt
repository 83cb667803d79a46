//! Which refusals are counted.

ghost use Rattle.std.specs.Prelude.{◌≡◌, Ok, IfOk};
ghost use Rattle.muni_store.specs.Faults.{kept};
ghost use Rattle.muni_store_trees.specs.Calls.{CountsFailure};

use crate::fault::StoreFault;
use muni_edge::Faults;
use muni_keep::KeepFault;

/// What a keeper answers. A failure is counted, and a lack of memory is not.
pub(crate) fn counted<T>(faults: &mut Faults, answer: Result<T, StoreFault>) -> Result<T, KeepFault>
    ensures value { IfOk result (λ value. answer ≡ Ok value) }
    ensures same { result ≡ kept answer }
    ensures counted { CountsFailure result faults.old faults.new }
{
    match answer {
        Ok(value) => Ok(value),
        Err(StoreFault::NoMemory) => Err(KeepFault::NoMemory),
        Err(StoreFault::Failed | StoreFault::Shut) => Err(faults.fail().into()),
    }
}
