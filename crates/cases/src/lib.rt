// Examples by the dozen, run and compared: one module a room. Nothing else may live here.
#![tactic(auto)]

#[cfg(test)]
mod columns;
#[cfg(test)]
mod fields;
#[cfg(test)]
mod jobs;
#[cfg(test)]
mod orders;
#[cfg(test)]
mod probes;
#[cfg(test)]
mod shapes;
