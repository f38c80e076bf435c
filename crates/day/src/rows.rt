// The row of figures of a new record.
ghost use Rattle.std.specs.Prelude.{◌≡◌, ◌+◌, ◌*◌, ◌≤◌, length};
ghost use Rattle.memory.specs.Rows.{row_filled};

use memory::ROW;

// Writes the value, which is copied, in the first `count` quarter-hours of the record in a place.
pub(crate) fn fill_row<T: Clone>(figures: &mut [T], place: usize, count: usize, value: T)
    requires room { place * 100 + count ≤ length figures.old }
    requires copied { T.is_infallible value }
    requires alike { (y : T) → T.is_clone value y → y ≡ value }
    ensures { figures.new ≡ row_filled place count value figures.old }
{
    let first = place * ROW;
    figures[first..first + count].fill(value);
}
