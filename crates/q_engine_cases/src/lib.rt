//! Tests of the engine and of a drain by public calls alone, which no page of `cases` can say: a queue file
//! that is another one while its message is in memory, and two servers that wait for each other.
#![tactic(auto)]

#[cfg(test)]
mod batches;
#[cfg(test)]
mod drive;
#[cfg(test)]
mod pairs;
#[cfg(test)]
mod sweeps;
