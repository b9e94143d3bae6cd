//! What no clause says of the outside: that the system's files and its output are what a run reads and writes, what scripts of
//! addresses and lists of cases are cut into, how numbers are spelled, and what a generated source says.
#![tactic(auto)]

#[cfg(test)]
mod devices;
#[cfg(test)]
mod lists;
#[cfg(test)]
mod scripts;
#[cfg(test)]
mod sources;
#[cfg(test)]
mod texts;
