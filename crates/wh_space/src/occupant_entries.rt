// Who has which place, and what all of them were promised together.

ghost use Rattle.std.specs.Prelude.{◌≡◌, ◌+◌, ◌-◌, ◌^◌, ◌<◌, ◌≤◌, ℕ, [], IfSome, None, Some, OnOk, length, get_or, map, slice_get, slice_set, vec_len, vec_capacity};
ghost use Rattle.wh_space_model.specs.Frames.{tally};
ghost use Rattle.wh_space_model.specs.Parts.{of_occupant};
ghost use Rattle.wh_space_model.specs.Places.{with_row};
ghost use Rattle.wh_space.specs.Occupancy.{occupant_of, terms_of};
ghost use Rattle.wh_space.specs.declared.occupant_entry.OccupantEntry.{OccupantEntry as Entry};
ghost use Rattle.wh_space.specs.OccupantEntries.{begins_coming, begins_leaving, ends_coming, ends_leaving, entry_awaiting, occupant_gone, settles};

use crate::occupant_entry::OccupantEntry;
use std::alloc::{AllocError, Global};
use std::marker::Model;
use wh_model::Need;

/// Who has which place, with the sums of what all of them were promised, so that nobody has to look at each of them.
#[derive(Drop)]
pub struct OccupantEntries {
    rows: Vec<Option<OccupantEntry>>,
    // The sum of all minima.
    minima: u64,
    // The sum of all spreads.
    spreads: u64,
    // None of their numbers is above it.
    greatest: u64,
}

impl Model for OccupantEntries {
    ghost use Rattle.wh_space.specs.Occupancy.{HeldPlaces, IsSummed, held_places};

    ghost Value = { HeldPlaces };

    ghost view = { held_places };

    ghost invariant = { IsSummed };
}

// The least number of pages that was promised to whoever is there, 0 where nobody is.
fn min_of(occupant_entry: Option<OccupantEntry>) -> u64
    ensures { result ≡ of_occupant (λ t. t.min) (occupant_of occupant_entry) }
{
    match occupant_entry {
        Some(occupant_entry) => u64::from(occupant_entry.min),
        None => 0,
    }
}

// By how many pages it may go beyond, and one more.
fn spread_of(occupant_entry: Option<OccupantEntry>) -> u64
    ensures { result ≡ of_occupant (λ t. (t.max - t.min) + 1) (occupant_of occupant_entry) }
{
    match occupant_entry {
        Some(occupant_entry) => u64::from(occupant_entry.max.saturating_sub(occupant_entry.min))
            + 1,
        None => 0,
    }
}

// Puts a row at a place, which may be the next one.
fn put_entry(rows: &mut Vec<Option<OccupantEntry>>, place: usize, occupant_entry: OccupantEntry)
    requires place { place ≤ length rows.old.items }
    requires room { vec_len rows.old < vec_capacity rows.old }
    ensures { rows.new.items ≡ with_row rows.old.items place (Some occupant_entry) }
{
    if place < rows.len() {
        rows[place] = Some(occupant_entry);
    } else {
        rows.push_reserved(Some(occupant_entry));
    }
}

impl OccupantEntries {
    /// Creates the entries of nobody, without a place. Allocates nothing.
    pub fn new(alloc: Global) -> OccupantEntries
        ensures items { result.items ≡ [] }
    {
        OccupantEntries {
            rows: Vec::new(alloc),
            minima: 0,
            spreads: 0,
            greatest: 0,
        }
    }

    /// Returns the number of places, free ones included.
    pub fn len(&self) -> usize
        ensures { result ≡ length self.now.items }
    {
        self.rows.len()
    }

    /// Returns who has this place, if anybody does.
    pub fn at(&self, place: usize) -> Option<OccupantEntry>
        requires { place < length self.now.items }
        ensures entry { result ≡ get_or self.now.items place result }
        ensures nobody { result ≡ get_or self.now.items place None }
    {
        self.rows[place]
    }

    /// Returns the sum of what each was promised at least, in pages.
    pub fn minima(&self) -> u64
        ensures { result ≡ tally (of_occupant (λ t. t.min)) (map occupant_of self.now.items) }
    {
        self.minima
    }

    /// Returns the sum of how many pages each may go beyond that, and one more.
    pub fn spreads(&self) -> u64
        ensures { result
            ≡ tally (of_occupant (λ t. (t.max - t.min) + 1)) (map occupant_of self.now.items) }
    {
        self.spreads
    }

    /// Returns a number that is at least that of each who has a place.
    pub fn greatest(&self) -> u64
        ensures { (i : ℕ) (t : Entry) → slice_get self.now.items i ≡ Some (Some t) → t.number ≤ result }
    {
        self.greatest
    }

    /// Makes room for one more place.
    ///
    /// # Errors
    /// `AllocError` if an allocation fails.
    pub fn reserve(&mut self) -> Result<(), AllocError>
        ensures items { self.new.items ≡ self.old.items }
        ensures ok { OnOk result (1 ≤ self.new.spare) }
    {
        self.rows.reserve(1)
    }

    /// Gives somebody a place that nobody has, which may be the next one.
    pub fn put_occupant(&mut self, place: usize, occupant_entry: OccupantEntry)
        requires place { place ≤ length self.old.items }
        requires nobody { get_or self.old.items place None ≡ None }
        requires room { 1 ≤ self.old.spare }
        requires minima { tally (of_occupant (λ t. t.min)) (map occupant_of self.old.items) + occupant_entry.min
            < 2 ^ 64 }
        requires spreads { tally (of_occupant (λ t. (t.max - t.min) + 1)) (map occupant_of self.old.items)
            + ((occupant_entry.max - occupant_entry.min) + 1) < 2 ^ 64 }
        ensures { self.new.items ≡ with_row self.old.items place (Some occupant_entry) }
    {
        put_entry(&mut self.rows, place, occupant_entry);
        self.minima += min_of(Some(occupant_entry));
        self.spreads += spread_of(Some(occupant_entry));
        self.greatest = self.greatest.max(occupant_entry.number);
    }

    // Whoever has a place has another entry now, on the same terms.
    fn replace(&mut self, place: usize, occupant_entry: OccupantEntry)
        requires there { place < length self.old.items }
        requires same { terms_of (get_or self.old.items place None) ≡ terms_of (Some occupant_entry) }
        ensures { self.new.items ≡ slice_set self.old.items place (Some occupant_entry) }
    {
        self.rows[place] = Some(occupant_entry);
    }

    // Nobody has this place any more.
    fn vacate(&mut self, place: usize)
        requires { place < length self.old.items }
        ensures { self.new.items ≡ slice_set self.old.items place None }
    {
        let was = self.rows[place];
        self.minima -= min_of(was);
        self.spreads -= spread_of(was);
        self.rows[place] = None;
    }

    /// Records that the instance at this place waits for a frame at these bytes, or for none.
    pub fn stand_at(&mut self, place: usize, need: Option<Need>)
        requires { place < length self.old.items }
        ensures { self.new.items ≡ slice_set self.old.items place
            (entry_awaiting (get_or self.old.items place None) need) }
    {
        if let Some(occupant_entry) = self.at(place) {
            self.replace(
                place,
                OccupantEntry {
                    stands: need,
                    ..occupant_entry
                },
            );
        }
    }

    /// Records that the instance at this place goes. It keeps the place while a ticket of it is out.
    pub fn let_occupant_go(&mut self, place: usize)
        requires { place < length self.old.items }
        ensures { self.new.items ≡ slice_set self.old.items place
            (occupant_gone (get_or self.old.items place None)) }
    {
        if let Some(occupant_entry) = self.at(place) {
            if occupant_entry.tickets == 0 {
                self.vacate(place);
            } else {
                self.replace(
                    place,
                    OccupantEntry {
                        live: false,
                        stands: None,
                        ..occupant_entry
                    },
                );
            }
        }
    }

    /// Records that a page of the instance at this place is leaving by this slot, with one more ticket out.
    pub fn begin_leaving(&mut self, place: usize, slot: u32)
        requires there { place < length self.old.items }
        requires few { IfSome (get_or self.old.items place None) (λ occupant_entry.
            occupant_entry.tickets + 1 < 2 ^ 64) }
        ensures { self.new.items ≡ slice_set self.old.items place
            (begins_leaving slot (get_or self.old.items place None)) }
    {
        if let Some(occupant_entry) = self.at(place) {
            self.replace(
                place,
                OccupantEntry {
                    leaves: Some(slot),
                    tickets: occupant_entry.tickets + 1,
                    ..occupant_entry
                },
            );
        }
    }

    /// Records that this page has left, or stays: one ticket fewer is out.
    pub fn end_leaving(&mut self, place: usize)
        requires { place < length self.old.items }
        ensures { self.new.items ≡ slice_set self.old.items place
            (ends_leaving (get_or self.old.items place None)) }
    {
        if let Some(occupant_entry) = self.at(place) {
            self.replace(
                place,
                OccupantEntry {
                    leaves: None,
                    tickets: occupant_entry.tickets.saturating_sub(1),
                    ..occupant_entry
                },
            );
        }
    }

    /// Records that a page of the instance at this place is coming, with one more ticket out.
    pub fn begin_coming(&mut self, place: usize)
        requires there { place < length self.old.items }
        requires few { IfSome (get_or self.old.items place None) (λ occupant_entry.
            occupant_entry.tickets + 1 < 2 ^ 64) }
        ensures { self.new.items ≡ slice_set self.old.items place
            (begins_coming (get_or self.old.items place None)) }
    {
        if let Some(occupant_entry) = self.at(place) {
            self.replace(
                place,
                OccupantEntry {
                    tickets: occupant_entry.tickets + 1,
                    ..occupant_entry
                },
            );
        }
    }

    /// Records that this page has come, or hasn't: one ticket fewer is out.
    pub fn end_coming(&mut self, place: usize)
        requires { place < length self.old.items }
        ensures { self.new.items ≡ slice_set self.old.items place
            (ends_coming (get_or self.old.items place None)) }
    {
        if let Some(occupant_entry) = self.at(place) {
            self.replace(
                place,
                OccupantEntry {
                    tickets: occupant_entry.tickets.saturating_sub(1),
                    ..occupant_entry
                },
            );
        }
    }

    /// Frees the place of an instance that was released, once no ticket of it is out.
    pub fn settle(&mut self, place: usize)
        requires { place < length self.old.items }
        ensures { self.new.items ≡ slice_set self.old.items place
            (settles (get_or self.old.items place None)) }
    {
        if let Some(occupant_entry) = self.at(place)
            && !occupant_entry.live
            && occupant_entry.tickets == 0
        {
            self.vacate(place);
        }
    }
}
