// Slots that move by one place, of depths as of labels. Rows are plain numbers, as document 01 hands them over: a type for one from 1 on would need
// an unwrap wherever one is reckoned.
ghost use Rattle.std.specs.Prelude.{◌≡◌, ◌∷◌, ◌++◌, suc, ◌<◌, ◌≤◌, length, take, drop};
ghost use Rattle.journal.specs.Strike.{without, put_back};

// The first `count` slots without slot `row`: later ones move up a place, and the last of them becomes `empty`.
pub(crate) fn close<T: Copy>(slots: &mut [T], row: usize, count: usize, empty: T)
    requires { (1 ≤ row) × (row ≤ count) × (count ≤ length slots.old) }
    ensures { slots.new ≡ without (take count slots.old) row ++ (empty ∷ drop count slots.old) }
{
    slots.copy_within(row..count, row - 1);
    slots[count - 1] = empty;
}

// The first `count` slots with `item` put back at place `row`: the slots from there on move down a place.
pub(crate) fn open<T: Copy>(slots: &mut [T], row: usize, count: usize, item: T)
    requires { (1 ≤ row) × (row ≤ suc count) × (count < length slots.old) }
    ensures { slots.new ≡ put_back (take count slots.old) row item ++ drop (suc count) slots.old }
{
    slots.copy_within(row - 1..count, row);
    slots[row - 1] = item;
}
