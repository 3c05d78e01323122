#![tactic(auto)]

// Examples of what the libraries do. The expected values were worked out by hand or come from outside.
#[cfg(test)]
mod devices;
#[cfg(test)]
mod digests;
#[cfg(test)]
mod labels;
#[cfg(test)]
mod sheets;
#[cfg(test)]
mod sims;
#[cfg(test)]
mod trees;
#[cfg(test)]
mod trials;
#[cfg(test)]
mod volumes;
