//! What every command line shares: its words and their options, an input of bytes up to a length, the file of a report,
//! how long a connection may take, a text that is shown, and why a command is not done, in words and as a status. What
//! may live here: what is one thing for every program. No database and no command is known here.
#![tactic(auto)]

mod arguments;
mod bytes;
mod fault;
mod options;
mod output;
mod patience;
mod report_file;
mod values;
mod word;

pub use arguments::words;
pub use bytes::{ReadFault, read_up_to, read_whole};
pub use fault::{CommandFault, DatabaseFault, Restore};
pub use options::{
    VERSION, database_option, filer_option, flag, number_option, option, path_option, port_option,
    report_files, wait_option,
};
pub use output::{DONE, refuse, show, tell};
pub use patience::{Deadline, Patient, Waits};
pub use report_file::report;
pub use values::{
    is_set, number_of, number_of_16_bits, number_of_32_bits, read_number, value_of, values_of,
    wait_of,
};
pub use word::{ToArg, Word, tasks};
