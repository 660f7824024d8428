ghost use Rattle.std.specs.Prelude.{◌<◌, ◌≤◌, [], length, map, slice_index_or};
ghost use Rattle.context_workers.specs.Seats.{LastTaken};

/// Takes the last item of the list at this place.
pub(crate) fn take_last<T>(lists: &mut [Vec<T>], place: usize) -> T
    requires within { place < length lists.old }
    requires some { 1 ≤ length (slice_index_or (map (λ list. list.items) lists.old) place []) }
    ensures { LastTaken place (map (λ list. list.items) lists.old) (map (λ list. list.items) lists.new) result }
{
    match lists[place].pop() {
        Some(last) => last,
        None => unreachable!(),
    }
}
