//! Tests of threads: what they count, hand out and agree on, whatever they work on; a host that several of them share, and
//! what it shows; and turns that go on while its swap device is called.
#![tactic(auto)]

#[cfg(test)]
mod at_once;
#[cfg(test)]
mod cell;
#[cfg(test)]
mod in_hand;
#[cfg(test)]
mod overlap;
#[cfg(test)]
mod passes;
#[cfg(test)]
mod requests;
#[cfg(test)]
mod showing;
#[cfg(test)]
mod workers;
