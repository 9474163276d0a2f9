// New epochs.

ghost use Rattle.wh_space_model.specs.Stores.{Epochs};

use crate::memory::Memory;

impl Memory {
    /// Begins a new epoch: no page is marked as touched. It goes over all pages.
    pub fn new_epoch(&mut self)
        ensures { Epochs self.old self.new }
    {
        self.tables.clear_marks();
    }
}
