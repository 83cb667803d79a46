//! The words that the program was started with, standard input and output, connections and a port of this
//! machine, its files, and journals in files, as what a desk is handed.
#![tactic(auto)]

mod closing;
mod command_line;
mod door;
pub mod file;
mod file_disk;
mod file_shelf;
mod input;
mod link;
mod output;
mod reading;
mod writing;

pub use command_line::{NoWords, words};
pub use door::LoopbackDoor;
pub use file_disk::FileDisk;
pub use file_shelf::FileShelf;
pub use input::Input;
pub use link::StreamLink;
pub use output::Output;
