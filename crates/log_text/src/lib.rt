//! A log as text: the certificate that no selection exists leaves the program, and can be read by others.
#![tactic(auto)]

mod fault;
mod laws;
mod lines;
mod printing;
mod reading;
mod words;

pub use fault::LogFault;
pub use laws::{meaning_is_the_texts, one_bad_line, printed_reads_back, text_of_one};
pub use printing::print_log;
pub use reading::read_log;
