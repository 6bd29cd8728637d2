//! Where a number stands among rising ones.
ghost use Rattle.std.specs.Prelude.{◌≡◌};
ghost use Rattle.std.specs.Borrow.{sem};
ghost use Rattle.std.specs.Option.{option_copied_mut};
ghost use Rattle.number_map.specs.RowLends.{lends_value};
ghost use Rattle.number_map.specs.Rows.{IsRising, IsPlace, stands_at};

/// A number, and what stands under it: nothing where its value was taken away.
#[derive(Drop)]
pub(crate) struct Row<V> {
    pub(crate) number: u64,
    pub(crate) value: Option<V>,
}

impl<V> Row<V> {
    /// The value for writing, if there is one.
    pub(crate) fn value_mut(&mut self) -> Option<&mut V>
        ensures* writes_back { sem 𝓛 (lends_value V.row self.entry result) }
        ensures value { option_copied_mut result ≡ self.old.value }
    {
        self.value.as_mut()
    }
}

/// The place of a number by halving; `Err` has the place where it would stand.
fn halved<V>(rows: &[Row<V>], number: u64) -> Result<usize, usize>
    requires { IsRising rows.now }
    ensures { IsPlace number rows.now result }
{
    let mut low = 0;
    let mut high = rows.len();
    while low < high {
        let middle = low + (high - low) / 2;
        let other = rows[middle].number;
        if other == number {
            return Ok(middle);
        }
        if other < number {
            low = middle + 1;
        } else {
            high = middle;
        }
    }
    Err(low)
}

/// Whether a number stands at a place.
fn is_there<V>(rows: &[Row<V>], number: u64, place: usize) -> bool
    ensures { result ≡ stands_at rows.now number place }
{
    match rows.get(place) {
        Some(row) => row.number == number,
        None => false,
    }
}

/// The place of a number; `Err` has the place where it would stand. Where no number below it was passed over or taken
/// out, it stands as far behind the first one as it is greater.
pub(crate) fn place<V>(rows: &[Row<V>], number: u64) -> Result<usize, usize>
    requires { IsRising rows.now }
    ensures { IsPlace number rows.now result }
{
    let Some(first) = rows.first() else {
        return Err(0);
    };
    let guess = number.saturating_sub(first.number) as usize;
    if is_there(rows, number, guess) {
        return Ok(guess);
    }
    halved(rows, number)
}
