//! Tests of scripts: lines with the replies that they have to get; what instances do and share; and readers, writers and
//! files that fail or give little at a time.
#![tactic(auto)]

#[cfg(test)]
mod calls;
#[cfg(test)]
mod failing;
#[cfg(test)]
mod fakes;
#[cfg(test)]
mod guests;
#[cfg(test)]
mod limits;
#[cfg(test)]
mod lines;
#[cfg(test)]
mod lives;
#[cfg(test)]
mod requests;
#[cfg(test)]
mod running;
#[cfg(test)]
mod sharing;
#[cfg(test)]
mod speaking;
#[cfg(test)]
mod starts;
#[cfg(test)]
mod swapping;
