// Examples that run: what the parts below do on small inputs.
#![tactic(auto)]

#[cfg(test)]
mod lists;
#[cfg(test)]
mod refusals;
#[cfg(test)]
mod stations;
