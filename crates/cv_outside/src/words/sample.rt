// Sample files: many pairs of a sender and a receiver under keys of a MAC.
mod samples;

pub use samples::file_of;
