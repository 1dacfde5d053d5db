// Examples that run: the stands, the bodies, and what is due, at their edges.
#![tactic(auto)]

#[cfg(test)]
mod bodies_at_edges;
#[cfg(test)]
mod stands_at_edges;
