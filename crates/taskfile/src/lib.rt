//! Task files, read and written.
#![tactic(auto)]

mod fault;
mod header;
mod laws;
mod put;
mod reader;
mod view;
mod writer;

pub use fault::Fault;
pub use laws::format_stands;
pub use view::FileView;
pub use writer::write;
