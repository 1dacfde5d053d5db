// Records and refusals as lines of text.
#![tactic(auto)]

mod counts;
mod refusals;
mod rows;

pub use counts::Holdings;
pub use refusals::Refused;
pub use rows::Row;

#[cfg(test)]
mod tests;
