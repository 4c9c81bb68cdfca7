//! Tests of agents with ample memory: one visit of a cell for each kind of agent, a run that is
//! replayed, a table and a problem that are sliced, and a cut that agents solve. The program does
//! not make these calls.
#![tactic(auto)]

#[cfg(test)]
mod cells;
#[cfg(test)]
mod cuts;
#[cfg(test)]
mod runs;
#[cfg(test)]
mod tables;
