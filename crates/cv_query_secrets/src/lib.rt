// The laws of secrecy: in one session and in many, by what isn't read and by pairs of copies; and what the terms of two copies say.
#![tactic(auto)]

pub mod copies;
pub mod names;
pub mod sessions;
pub mod unread;
