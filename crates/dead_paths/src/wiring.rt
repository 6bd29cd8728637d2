//! The rows of a graph's wiring.
ghost use Rattle.std.specs.Prelude.{◌≡◌};
ghost use Rattle.flow_model.specs.Wiring.{row_at};

use flow_model::List;

/// The row of the activity at a place; empty where there is none.
pub fn row(rows: &[List<u32>], place: u32) -> &[u32]
    ensures { result.now ≡ row_at rows.now place }
{
    match rows.get(place as usize) {
        Some(row) => row.as_slice(),
        None => &[],
    }
}
