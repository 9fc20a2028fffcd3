//! Tests of the edges by public calls alone: the host over real folders, in spools of their own below the
//! folder for temporary files, streams over readers that fail, and the machine's clock. They say what no
//! contract of them can.
#![tactic(auto)]

#[cfg(test)]
mod clocks;
#[cfg(test)]
mod fixture;
#[cfg(test)]
mod grouping;
#[cfg(test)]
mod listing;
#[cfg(test)]
mod looking;
#[cfg(test)]
mod opening;
#[cfg(test)]
mod single_files;
#[cfg(test)]
mod streams;
#[cfg(test)]
mod writing;
