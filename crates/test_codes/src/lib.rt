//! Tests of the bytes of messages and frames, of links, WCSP texts, names and a log, with ample
//! memory, and of sources and sinks that fail. The program does not make these calls.
#![tactic(auto)]

#[cfg(test)]
mod codes;
#[cfg(test)]
mod edges;
#[cfg(test)]
mod frames;
#[cfg(test)]
mod links;
#[cfg(test)]
mod logs;
#[cfg(test)]
mod networks;
#[cfg(test)]
mod texts;
