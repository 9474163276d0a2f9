//! What goes into the caller's room.

ghost use Rattle.std.specs.Prelude.{◌≡◌, length};
ghost use Rattle.wolqedir.specs.Rooms.{laid_in};

/// Copies as many of these as there is room for, from the room's beginning, and tells how many there are.
pub fn lay<T: Copy>(items: &[T], room: &mut [T], len: &mut usize)
    ensures room { room.new ≡ laid_in items.now room.old }
    ensures len { len.new ≡ length items.now }
{
    *len = items.len();
    if items.len() <= room.len() {
        let (front, _) = room.split_at_mut(items.len());
        front.copy_from_slice(items);
    } else {
        room.copy_from_slice(&items[..room.len()]);
    }
}
