//! Tests of containers that are written and read: the text of each, what comes twice, input that doesn't fit (`values`), and
//! each allocation refused in turn (`refused`).
#![tactic(auto)]

#[cfg(test)]
mod digits;
#[cfg(test)]
mod refused;
#[cfg(test)]
mod values;
