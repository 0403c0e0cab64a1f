//! The outside of the program: files and sinks, in memory and of the host.
#![tactic(auto)]

mod call;
mod counts;
mod fault;
mod file_sink;
mod files;
mod folder;
mod host_files;
mod host_sink;
mod memory_files;
mod memory_sink;
mod plan;
mod reading;
mod sink;
mod writing;

pub use call::Call;
pub use fault::{Failed, LoadFault, OutOfMemory};
pub use file_sink::FileSink;
pub use files::Files;
pub use host_files::HostFiles;
pub use host_sink::HostSink;
pub use memory_files::MemoryFiles;
pub use memory_sink::MemorySink;
pub use reading::read_whole;
pub use sink::Sink;
