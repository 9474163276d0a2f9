//! The names that `wh_names` keeps, beside a list of them.

use crate::tables::agree;
use anyhow::{Result, ensure};
use std::alloc::{AllocError, Global};
use std::hash::{FoldHasher, Hasher};
use wh_names::Names;

// How many names come, and how many of them stay when the last ones go.
const NAMES: usize = 3000;

const LEFT: usize = 1200;

// The first name of the list that has another place among the names, if there is one.
fn misplaced(names: &Names, list: &[String]) -> Option<usize> {
    list.iter()
        .enumerate()
        .position(|(place, name)| names.place(name.as_str()) != Some(place))
}

// Adds a name to both, unless it is there.
fn add(
    alloc: Global,
    names: &mut Names,
    list: &mut Vec<String>,
    name: String,
) -> Result<(), AllocError> {
    if names.place(name.as_str()).is_none() {
        names.add(alloc, name.as_str())?;
        list.push(name)?;
    }
    Ok(())
}

// Thousands of names come, the last ones go, and others come in their places.
fn come_and_go(alloc: Global) -> Result<()> {
    let mut names = Names::new(alloc);
    names.remove_last();
    ensure!(names.len() == 0, "there are names before any was added");
    let mut list = Vec::new(alloc);
    for number in 0..NAMES {
        let name = format!(in alloc; "i{number}")?;
        add(alloc, &mut names, &mut list, name)?;
    }
    ensure!(names.len() == NAMES, "a name is missing");
    agree("names that come", misplaced(&names, &list))?;
    ensure!(names.place("").is_none(), "a name is there that never came");
    for _ in LEFT..NAMES {
        names.remove_last();
    }
    list.truncate(LEFT);
    ensure!(names.len() == LEFT, "another number of names is left");
    agree("names that stay", misplaced(&names, &list))?;
    ensure!(names.place("i1200").is_none(), "a name is there that went");
    add(alloc, &mut names, &mut list, String::new(alloc))?;
    for number in LEFT..NAMES {
        let name = format!(in alloc; "j{number}")?;
        add(alloc, &mut names, &mut list, name)?;
    }
    agree("names that come later", misplaced(&names, &list))
}

// Whether a name falls into the first of 128 buckets.
fn is_first(name: &str) -> bool {
    let mut hasher = FoldHasher::default();
    hasher.write(name.as_bytes());
    hasher.finish() % 128 == 0
}

// Names come that have one bucket while there are at most 128.
fn collide(alloc: Global) -> Result<()> {
    let mut names = Names::new(alloc);
    let mut list = Vec::new(alloc);
    for number in 0..20000 {
        let name = format!(in alloc; "{number}")?;
        if is_first(name.as_str()) {
            add(alloc, &mut names, &mut list, name)?;
            agree("names of one bucket", misplaced(&names, &list))?;
        }
    }
    ensure!(names.len() > 128, "too few names have one bucket");
    Ok(())
}

/// Compares places of names: how many ways of coming and going were tried.
pub fn check(alloc: Global) -> Result<usize> {
    come_and_go(alloc)?;
    collide(alloc)?;
    Ok(2)
}
