//! Tests of a desk: what it replies to an operator and to tenants, of copies too, and what to a stranger, by one thread and by several.
#![tactic(auto)]

#[cfg(test)]
mod begun;
#[cfg(test)]
mod copies;
#[cfg(test)]
mod seen;
#[cfg(test)]
mod strangers;
#[cfg(test)]
mod threads;
