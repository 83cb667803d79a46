//! How a command ends, and what it says.

ghost use Rattle.std.specs.Prelude.{◌≡◌};
ghost use Rattle.muni_desk.specs.Status.{number_of, of_answered, of_checked, of_done, of_fault, of_served};

use arrayvec::ArrayVec;
use muni_check::CheckEnd;
use muni_desk_import::Answered;
use muni_desk_io::Fault;
use muni_desk_serve::ServeFault;

/// How a command ended.
#[derive(Clone, Copy, Debug, PartialEq, Eq)]
pub enum Status {
    /// It did what was asked.
    Done,
    /// The words are no command.
    Usage,
    /// The answer is a refusal, or not all figures that were checked are right.
    Refused,
    /// The input failed.
    ReadFault,
    /// The output failed.
    WriteFault,
    /// The store failed.
    StoreFault,
    /// The door failed.
    DoorFault,
    /// No memory was left.
    NoMemory,
    /// The input is too long.
    TooLarge,
}

impl Status {
    /// The status of a command over a store that is done or has met a fault.
    pub fn of_done(done: Result<(), Fault>) -> Status
        ensures { result ≡ of_done done }
    {
        match done {
            Ok(()) => Status::Done,
            Err(fault) => Status::of_fault(fault),
        }
    }

    /// The status of a confirmation.
    pub fn of_answered(answered: Result<Answered, Fault>) -> Status
        ensures { result ≡ of_answered answered }
    {
        match answered {
            Ok(Answered::Confirmed) => Status::Done,
            Ok(Answered::Refused) => Status::Refused,
            Err(fault) => Status::of_fault(fault),
        }
    }

    /// The status of a check of figures.
    pub fn of_checked(checked: Result<CheckEnd, Fault>) -> Status
        // promise 9: the status of a check says if all rows are right and no trade is missing
        ensures { result ≡ of_checked checked }
    {
        match checked {
            Ok(CheckEnd::AllRight) => Status::Done,
            Ok(CheckEnd::NotAllRight | CheckEnd::BadNames) => Status::Refused,
            Err(fault) => Status::of_fault(fault),
        }
    }

    fn of_fault(fault: Fault) -> Status
        ensures { result ≡ of_fault fault }
    {
        match fault {
            Fault::Read => Status::ReadFault,
            Fault::Write => Status::WriteFault,
            Fault::Store => Status::StoreFault,
            Fault::NoMemory => Status::NoMemory,
            Fault::TooLarge => Status::TooLarge,
        }
    }

    /// The status of a run of connections.
    pub fn of_served(served: Result<(), ServeFault>) -> Status
        ensures { result ≡ of_served served }
    {
        match served {
            Ok(()) => Status::Done,
            Err(ServeFault::Store) => Status::StoreFault,
            Err(ServeFault::Door) => Status::DoorFault,
            Err(ServeFault::NoMemory) => Status::NoMemory,
        }
    }

    /// The exit status of the program, from 0 to 9.
    pub fn number(self) -> u8
        ensures { result ≡ number_of self }
    {
        match self {
            Status::Done => 0,
            Status::Usage => 2,
            Status::Refused => 3,
            Status::ReadFault => 4,
            Status::WriteFault => 5,
            Status::StoreFault => 6,
            Status::DoorFault => 7,
            Status::NoMemory => 8,
            Status::TooLarge => 9,
        }
    }
}

/// What a command says: a text of lines, and the status in which it ends once the text is written.
#[derive(Drop)]
pub struct Answer {
    pub status: Status,
    pub text: ArrayVec<u8, 10624>,
}
