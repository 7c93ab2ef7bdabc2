// The rows of a table: their depths, their opening and closing numbers, and the first row that is bad.
#![tactic(auto)]

ghost use Rattle.std.specs.Prelude.{◌≡◌, true, ◌↔◌, ℕ, suc, ◌≤◌};
ghost use Rattle.rows.specs.Limits.{deepest};
ghost use Rattle.rows.specs.Rows.{depth, descendants, last_row, closing, is_ancestor, is_left_of, WellFormed};
ghost use Rattle.rows.specs.FirstBad.{first_bad};

// The most rows of a recipe and of a listing, and the largest depth.
pub const RECIPE_ROWS: usize = 256;

pub const LISTING_ROWS: usize = 4096;

pub const DEEPEST: u16 = 63;

// A row's opening number (preorder) is its row number, from 1. Number 0 is the virtual parent of all roots.
#[derive(Clone, Copy, Debug, PartialEq, Eq, PartialOrd, Ord)]
pub struct Opening(pub usize);

// A row's closing number (postorder). It comes only from `closing_of`, and is compared only with another closing number.
#[derive(Clone, Copy, Debug, PartialEq, Eq, PartialOrd, Ord)]
pub struct Closing(pub usize);

// The number of a table's first bad row, and what is bad: the step to its depth, or the depth.
#[derive(Clone, Copy, Debug, PartialEq, Eq)]
pub enum BadRow {
    Step(usize),
    TooDeep(usize),
}

// The most that a depth may be behind a row of depth d: one more, and 63 at most.
fn most_after(d: u16) -> u16
    ensures { (e : ℕ) → (e ≤ result) ↔ ((e ≤ suc d) × (e ≤ deepest)) }
{
    if d < DEEPEST {
        return d + 1;
    }
    DEEPEST
}

// Whether no row is bad. It never stops early: so the compiler looks at many rows at a time.
fn is_fine(depths: &[u16]) -> bool
    ensures { (result ≡ true) ↔ WellFormed depths.now }
{
    let mut fine = true;
    let mut most: u16 = 0;
    for &d in depths {
        if most < d {
            fine = false;
        }
        most = most_after(d);
    }
    fine
}

// The first bad row: a first row below depth 0 or a depth more than one below the row before it, else a depth over 63.
pub fn first_bad(depths: &[u16]) -> Result<(), BadRow>
    ensures { result ≡ first_bad depths.now }
{
    if is_fine(depths) {
        return Ok(());
    }
    let mut most: u16 = 0;
    for (i, &d) in depths.iter().enumerate() {
        if most < d {
            return Err(BadRow::Step(i + 1));
        }
        if DEEPEST < d {
            return Err(BadRow::TooDeep(i + 1));
        }
        most = d + 1;
    }
    Ok(())
}

// From here on each function takes the depths and a row apart: document 01 has the table lent as a plain slice, with no wrapper.

// The depth of a row; 0 where there is no such row, as `depth` of document 01's rows has it: the clause says so.
pub fn depth_of(depths: &[u16], row: Opening) -> u16
    ensures { result ≡ depth depths.now row.0 }
{
    let v = row.0;
    if v == 0 {
        return 0;
    }
    if depths.len() < v {
        return 0;
    }
    depths[v - 1]
}

// The number of a row's descendants, by the clause. All rows are below row 0; a row that is not there has none, a plain 0.
pub fn descendants_of(depths: &[u16], row: Opening) -> usize
    ensures { result ≡ descendants depths.now row.0 }
{
    let v = row.0;
    if v == 0 {
        return depths.len();
    }
    if depths.len() <= v {
        return 0;
    }
    let top = depths[v - 1];
    depths[v..].iter().take_while(|&&d| top < d).count()
}

// The last row of the tree at a row: its descendants are the rows after it up to this one, and the next row is after the tree.
#[tactic(auto, using(crate::proofs::DescendantLaws::descendants_within))]
pub fn last_row_of(depths: &[u16], row: Opening) -> Opening
    ensures { result.0 ≡ last_row depths.now row.0 }
{
    let v = row.0;
    Opening(v + descendants_of(depths, row))
}

// The closing number: row number plus descendants minus depth.
pub fn closing_of(depths: &[u16], row: Opening) -> Closing
    ensures { result.0 ≡ closing depths.now row.0 }
{
    let last = last_row_of(depths, row).0;
    let d = depth_of(depths, row) as usize;
    Closing(last.saturating_sub(d))
}

// Whether row u is an ancestor of w: it opens before w and closes after it.
pub fn is_ancestor(depths: &[u16], u: Opening, w: Opening) -> bool
    ensures { result ≡ is_ancestor depths.now u.0 w.0 }
{
    1 <= u.0 && u < w && closing_of(depths, w) < closing_of(depths, u)
}

// Whether row u is left of w: it opens before and closes before.
pub fn is_left_of(depths: &[u16], u: Opening, w: Opening) -> bool
    ensures { result ≡ is_left_of depths.now u.0 w.0 }
{
    1 <= u.0 && u < w && closing_of(depths, u) < closing_of(depths, w)
}
