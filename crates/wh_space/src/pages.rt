// Pages in the tables of all instances.

ghost use Rattle.std.specs.Prelude.{◌≡◌, ◌<◌, [], Some, MatchBool, true, false, IfSome, IfNone, length, get_or};
ghost use Rattle.wh_space_model.specs.Moves.{frame_of};
ghost use Rattle.wh_space_model.specs.Ready.{IsAtHand};
ghost use Rattle.wh_space_model.specs.States.{page_at, put};
ghost use Rattle.wh_space_model.specs.declared.states.Page.TheVariants.{Private, Swapped, Untouched};
ghost use Rattle.wh_space.specs.UnchangedTables.{fixed_in};

use wh_space_model::Page;
use wh_tables::Tables;

/// Tells whether the page is resident, or a page of zeros without a frame.
pub fn is_near(page: Page) -> bool
    ensures { MatchBool result (IsAtHand (Some page)) (¬ IsAtHand (Some page)) }
{
    !matches!(page, Page::Coming(_) | Page::Swapped(_))
}

/// Writes an entry of a page table.
pub fn put_page(tables: &mut Tables, place: usize, number: u32, page: Page)
    requires there { number < length (get_or tables.old.pages place []) }
    requires frame { IfSome (frame_of page) (λ frame. frame < tables.old.frames) }
    ensures pages { tables.new.pages ≡ put tables.old.pages place number page }
    ensures marks { tables.new.marks ≡ tables.old.marks }
    ensures limits { fixed_in tables.new ≡ fixed_in tables.old }
{
    tables.set(place, number, page);
}

/// Maps a page to a frame of its own, and marks it as touched.
pub fn stand_alone(tables: &mut Tables, place: usize, number: u32, frame: u32)
    requires there { number < length (get_or tables.old.pages place []) }
    requires frame { frame < tables.old.frames }
    ensures pages { tables.new.pages ≡ put tables.old.pages place number (Private frame) }
    ensures marks { tables.new.marks ≡ put tables.old.marks place number true }
    ensures limits { fixed_in tables.new ≡ fixed_in tables.old }
{
    tables.set(place, number, Page::Private(frame));
    tables.touch(place, number);
}

/// Makes a page one of zeros without a frame, and clears its mark of touch.
pub fn empty_page(tables: &mut Tables, place: usize, number: u32)
    requires { number < length (get_or tables.old.pages place []) }
    ensures pages { tables.new.pages ≡ put tables.old.pages place number Untouched }
    ensures marks { tables.new.marks ≡ put tables.old.marks place number false }
    ensures limits { fixed_in tables.new ≡ fixed_in tables.old }
{
    tables.set(place, number, Page::Untouched);
    tables.untouch(place, number);
}

/// Records that a page is in this slot, and clears its mark of touch.
pub fn swap_page(tables: &mut Tables, place: usize, number: u32, slot: u32)
    requires { number < length (get_or tables.old.pages place []) }
    ensures pages { tables.new.pages ≡ put tables.old.pages place number (Swapped slot) }
    ensures marks { tables.new.marks ≡ put tables.old.marks place number false }
    ensures limits { fixed_in tables.new ≡ fixed_in tables.old }
{
    tables.set(place, number, Page::Swapped(slot));
    tables.untouch(place, number);
}
