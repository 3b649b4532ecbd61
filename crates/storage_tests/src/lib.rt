//! What no contract says of the crates that keep bytes: worked digests, files on the disk, and a call of each on its happy
//! path.
#![tactic(auto)]

#[cfg(test)]
mod blocks;
#[cfg(test)]
mod disks;
#[cfg(test)]
mod dumps;
#[cfg(test)]
mod fields;
#[cfg(test)]
mod headers;
#[cfg(test)]
mod queues;
#[cfg(test)]
mod records;
#[cfg(test)]
mod streams;
#[cfg(test)]
mod twins;
