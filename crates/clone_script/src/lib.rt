//! The script of goclone: commands are taken from its bytes, and their replies are written.
//!
//! The contract: `next_command` answers the command at the front exactly where there is one, and says
//! whether the bytes are the beginning of a command; `CommandReader` answers the same where the bytes
//! come in pieces; each writer of a reply answers its bytes.
#![tactic(auto)]

mod choice;
mod command;
mod error;
mod extract;
pub mod laws;
mod listing;
mod maximal;
mod member_list;
mod name;
mod number;
mod reader;
mod reply;
mod run;
mod size;

pub use choice::{Choice, MemberNumbers};
pub use command::{Command, next_command};
pub use error::ScriptError;
pub use extract::{ExtractAnswer, extract_reply};
pub use listing::{ListedClass, class_reply};
pub use maximal::{NumberedClass, maximal_reply};
pub use reader::CommandReader;
pub use reply::{
    EditAnswer, EditKind, bad_reply, edit_reply, fault_reply, save_reply, show_reply, stat_reply,
};
pub use run::{PanicCause, RunAnswer, RunEnd, run_reply};
