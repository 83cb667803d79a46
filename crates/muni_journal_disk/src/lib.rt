//! A disk as a journal sees it: what it reads as, and what a stop at some moment leaves of it. The
//! disk in memory can be stopped within each of its calls. A shelf lends disks by name. Slots on a disk are
//! a gate byte each and what comes after it, and count if the gate is open.
#![tactic(auto)]

mod bytes;
mod disk;
mod fault;
mod mem_disk;
mod mem_shelf;
mod past;
mod shelf;
mod slots;

pub use disk::Disk;
pub use fault::DiskFault;
pub use mem_disk::MemDisk;
pub use mem_shelf::MemShelf;
pub use shelf::Shelf;
pub use slots::{SlotFault, put_slot, take_back};
