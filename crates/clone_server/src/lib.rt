//! The run of a session: commands are taken from a script, answered by a workspace, and their replies written.
//!
//! specs/Session.antt says what a session is: a fold over the commands of a script from the files of a package alone. A
//! `Workspace` answers the commands; this crate knows three sorts of them: `save`, which writes the folder, `quit`, and all
//! others, whose replies the workspace gives. So a further command changes nothing here.
//!
//! The ways in: `words_of` takes exactly the words of the command line that `clap` takes for this command and whose numbers are whole
//! numbers in their ranges; `open_folder` answers exactly the files of the folder whose names have the right form, in byte order of
//! the names, or that they pass a limit of packages; `Intake::next` answers the next command of the script as soon as its bytes came, or
//! how the script ends, and asks for no more than a command needs and a piece has. `serve_arguments` is `serve` at the words after the
//! program's own name, over any folder, script and sink; arguments that are no text give no words, so they are not taken.
#![tactic(auto)]

mod arguments;
mod folder;
mod intake;
pub mod laws;
pub mod made;
mod names;
mod number;
mod outside;
mod piece;
pub mod serve;
mod served;
mod session;
mod step;
mod stop;
mod words;
mod workspace;

pub use arguments::run;
pub use folder::{OpenError, open_folder};
pub use intake::Intake;
pub use step::{End, IntakeError, Step};
pub use stop::Stop;
pub use words::{USAGE, Words, WordsError, words_of};
pub use workspace::Workspace;
