// The text part: reading a plant text into lent lists, writing one, and listing the hierarchy of the plant that a text states.
// Document 01, "Plant text and listing".
#![tactic(auto)]

mod levels;
mod listing;
pub mod read;
mod reader;
pub mod show;
mod whole;
pub mod write;

// What reading answers: how many devices and lines a text states.
#[derive(Clone, Copy, Debug, Default, PartialEq, Eq)]
pub struct Size {
    pub devices: usize,
    pub lines: usize,
}
