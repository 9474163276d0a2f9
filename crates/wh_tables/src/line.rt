// Whoever came last to each place, in the order of numbers.

ghost use Rattle.std.specs.Prelude.{ℕ, ◌<◌, ◌≤◌, ◌≡◌, ◌==◌, List, not, length, vec_len, vec_capacity};
ghost use Rattle.std.specs.List.{filter};
ghost use Rattle.std.specs.List.Sorted.{IsNonDecreasingBy, IsPartitionPoint};
ghost use Rattle.wh_space_model.specs.Places.{with_row};
ghost use Rattle.wh_space_model.specs.declared.plain.InstId.{InstId};
ghost use Rattle.wh_tables.specs.Line.{IsLineOf};

use wh_space_model::InstId;

/// Returns how many of the line have numbers up to this one.
pub fn rank_above(line: &[InstId], number: u64) -> usize
    requires { IsNonDecreasingBy (λ (id : InstId). id.number) line.now }
    ensures within { result ≤ length line.now }
    ensures split { IsPartitionPoint (λ (id : InstId). id.number ≤ number) (λ (id : InstId). number < id.number)
        line.now result }
{
    line.partition_point(|id| id.number <= number)
}

// Whoever is at a place, with this number, leaves the line. Moves those behind.
fn take_out(line: &mut Vec<InstId>, place: usize, number: u64)
    requires { (numbers : List ℕ) × IsLineOf numbers line.old.items }
    ensures items { line.new.items ≡ filter (λ (id : InstId). not (id.place == place)) line.old.items }
    ensures bound { vec_len line.new ≤ vec_len line.old }
    ensures capacity { vec_capacity line.new ≡ vec_capacity line.old }
{
    let rank = rank_above(line, number);
    if 0 < rank && line[rank - 1].place == place {
        let _ = line.remove(rank - 1);
        return;
    }
    line.retain(|id| id.place != place);
}

// Whoever was at a place leaves the line. Nobody was at a place behind all.
fn leave_line(line: &mut Vec<InstId>, numbers: &Vec<u64>, place: usize)
    requires { IsLineOf numbers.now.items line.old.items }
    ensures items { line.new.items ≡ filter (λ (id : InstId). not (id.place == place)) line.old.items }
    ensures bound { vec_len line.new ≤ vec_len line.old }
    ensures capacity { vec_capacity line.new ≡ vec_capacity line.old }
{
    if numbers.len() <= place {
        return;
    }
    take_out(line, place, numbers[place]);
}

/// Inserts a newcomer into the line of these numbers by place, after all with numbers up to its own. Removes who was at
/// its place. Moves only those behind the two, and so none where the newcomer has a new place and the greatest number.
pub fn join_line(line: &mut Vec<InstId>, numbers: &Vec<u64>, newcomer: InstId)
    requires line { IsLineOf numbers.now.items line.old.items }
    requires place { newcomer.place ≤ length numbers.now.items }
    requires room { vec_len line.old < vec_capacity line.old }
    ensures { IsLineOf (with_row numbers.now.items newcomer.place newcomer.number) line.new.items }
{
    leave_line(line, numbers, newcomer.place);
    let rank = rank_above(line, newcomer.number);
    let _ = line.insert(rank, newcomer);
}
