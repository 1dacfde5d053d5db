// Examples that run: every mark, every operand at the edge of its range, and images that are none.
#![tactic(auto)]

#[cfg(test)]
mod bounds;
#[cfg(test)]
mod cells;
#[cfg(test)]
mod every_mark;
#[cfg(test)]
mod whole;
