//! Tests of what no row of a table shows: items, pairs and fields that are read one by one, tags
//! that are entered and left, what follows an item, what a stream holds between calls, types that
//! are read strictly, and a reader that has no end.
#![tactic(auto)]

#[cfg(test)]
mod arrays;
#[cfg(test)]
mod checks;
#[cfg(test)]
mod ends;
#[cfg(test)]
mod enums;
#[cfg(test)]
mod maps;
#[cfg(test)]
mod readers;
#[cfg(test)]
mod streams;
#[cfg(test)]
mod strict;
#[cfg(test)]
mod strings;
#[cfg(test)]
mod structs;
#[cfg(test)]
mod tags;
