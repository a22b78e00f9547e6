//! The commands of `eco`, over any host.
#![tactic(auto)]

mod apply_words;
mod applying;
mod base_texts;
mod check_words;
mod checking;
mod command;
mod command_line;
mod command_option;
mod done;
mod failure;
mod four_texts;
mod host;
mod host_fault;
mod input;
mod issued;
mod laid;
mod line;
mod memory;
mod move_words;
mod moving;
mod open;
mod opened_base;
mod order;
mod output;
mod plan;
mod refusal;
mod report;
mod returned;
mod running;
mod telling;
mod telling_base;
mod texts;
mod value_form;

pub use crate::host::Host;
pub use crate::host_fault::HostFault;
pub use crate::memory::MemoryHost;
pub use crate::running::run;
pub use eco_common::Memory;
