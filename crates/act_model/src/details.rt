//! What is told of a variable.
use pb_messages::{About, State};
use pv_name::PvName;

/// What is told of a variable.
#[derive(Drop)]
pub struct Details {
    pub name: PvName,
    pub about: About,
    pub state: State,
    /// How many samples are accepted, under this name and those before it.
    pub accepted: u64,
    /// How many of these are durable.
    pub durable: u64,
    /// The moment of the first accepted sample.
    pub first: Option<u64>,
    /// The moment of the last accepted sample.
    pub last: Option<u64>,
    /// How many files the short, the medium and the long term list.
    pub files: [u64; 3],
}
