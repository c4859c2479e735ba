//! Tests of lines over a table of versions and a map with snapshots: what no contract says.
#![tactic(auto)]

#[cfg(test)]
mod bad_lines;
#[cfg(test)]
mod ends;
#[cfg(test)]
mod long_lines;
#[cfg(test)]
mod memory;
#[cfg(test)]
mod printed;
#[cfg(test)]
mod session;
#[cfg(test)]
mod sessions;
#[cfg(test)]
mod snapshots;
#[cfg(test)]
mod sorted;
#[cfg(test)]
mod streams;
