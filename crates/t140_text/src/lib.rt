//! T.140 text: the classes of characters, how a text is shown, where it ends a line or a sentence, and its printed view.
#![tactic(auto)]

mod classes;
mod displays;
mod ends;
mod lines;
mod plain;
mod screens;
pub mod views;

pub use classes::class;
pub use displays::{Shown, show};
pub use ends::TextEnd;
pub use lines::Lines;
pub use view_spec::{CharClass, Counts};

#[cfg(test)]
mod tests;
