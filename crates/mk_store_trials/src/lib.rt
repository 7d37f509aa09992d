//! Trials of lines, disks and stores, over the public calls of `mk_io`, `mk_disk` and `mk_journal`: a crate of its own, since a crate
//! with tests is proved twice. What a trial owns it lets go by a call of `drop`: the end of its scope would take far longer to prove.
#![tactic(auto)]

#[cfg(test)]
mod disks;
#[cfg(test)]
mod headers;
#[cfg(test)]
mod journals;
#[cfg(test)]
mod lines;
