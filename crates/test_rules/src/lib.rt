//! Tests of reading by rules, with the examples of RFC 8949, of COSE and of CTAP2.
#![tactic(auto)]

#[cfg(test)]
mod appendix;
#[cfg(test)]
mod checked;
#[cfg(test)]
mod checks;
#[cfg(test)]
mod dcbor;
#[cfg(test)]
mod items;
#[cfg(test)]
mod keys;
#[cfg(test)]
mod limits;
#[cfg(test)]
mod protocols;
#[cfg(test)]
mod published;
#[cfg(test)]
mod raw;
#[cfg(test)]
mod readers;
#[cfg(test)]
mod rules;
#[cfg(test)]
mod stream;
#[cfg(test)]
mod tags;
#[cfg(test)]
mod unique;
#[cfg(test)]
mod written;
