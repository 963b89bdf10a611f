//! Where the bytes come from and go to: sources and sinks, the counts of their faults, and the calls
//! that read all of a source and write all of a text.
#![tactic(auto)]

mod errors;
pub mod laws;
mod mem_sink;
mod mem_source;
mod quiet_sink;
mod quiet_source;
mod reader_source;
mod reading;
mod sink;
mod source;
mod writer_sink;
mod writing;

pub use errors::{Failed, Memory, PutError, ReadError, WriteError};
pub use mem_sink::MemSink;
pub use mem_source::MemSource;
pub use quiet_sink::QuietSink;
pub use quiet_source::QuietSource;
pub use reader_source::ReaderSource;
pub use reading::read_all;
pub use sink::Sink;
pub use source::Source;
pub use writer_sink::WriterSink;
pub use writing::write_all;
