// The names and labels of the next game of a cryptographic step, and the table of them.

mod drawing;
mod filling;
mod fresh;
mod putting;

pub use drawing::draw;
