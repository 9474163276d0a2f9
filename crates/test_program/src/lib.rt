//! Tests of the program as a whole: its command line, settings, files and statuses, and scripts whose pages are swapped to a
//! file.
#![tactic(auto)]

#[cfg(test)]
mod asking;
#[cfg(test)]
mod files;
#[cfg(test)]
mod folders;
#[cfg(test)]
mod lines;
#[cfg(test)]
mod swapping;
