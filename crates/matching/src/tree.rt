// The tree of a listing row, where all rows below that row pass a test.
ghost use Rattle.std.specs.Prelude.{ℕ, ◌<◌, length};
ghost use Rattle.matching.specs.Engine.{TreeEnd};

// Where all rows below the row behind `first` rows pass the test, which gets how many rows stand before one: the last row of that tree.
pub(crate) fn tree_end<F: Fn(usize) -> bool>(
    depths: &[u16],
    first: usize,
    passes: F,
) -> Option<usize>
    requires in_bounds { first < length depths.now }
    requires testable { (i : ℕ) → i < length depths.now → F.pre passes i }
    ensures { TreeEnd (F.post passes) depths.now first result }
{
    for end in first + 1..depths.len() {
        if depths[end] <= depths[first] {
            return Some(end);
        }
        if !passes(end) {
            return None;
        }
    }
    Some(depths.len())
}
