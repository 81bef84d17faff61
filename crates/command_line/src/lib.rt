//! The command line of `sfq`: the command that its words give, and what is wrong with them.
#![tactic(auto)]

mod command_words;
mod known_commands;
mod misuse;
mod reading;
mod words;

pub use command_words::{VERSION, sfq_command, with_places, word};
pub use known_commands::Order;
pub use misuse::Misuse;
pub use reading::order;
pub use words::{read_words, texts_of};
