//! Where a row is among rows by SFID.

ghost use Rattle.std.specs.Prelude.{◌≡◌, true, length, IfOk, IfErr, IfSome};
ghost use Rattle.std.specs.List.Sorted.{IsStrictlySortedBy};
ghost use Rattle.std.specs.Ordering.{nat_cmp};
ghost use Rattle.std.specs.Map.{keys_of};
ghost use Rattle.admission.specs.Place.{StandsAt, IsGap};

/// Returns where the row of an SFID is, or where a new one would go. The rows ascend by SFID. An SFID past the last row, and one
/// that is as far from the first row as its SFID from the first one, are found without a search.
pub fn place_of<V>(rows: &[(u32, V)], sfid: u32) -> Result<usize, usize>
    requires { IsStrictlySortedBy nat_cmp (keys_of rows.now) }
    // The row of the SFID is there.
    ensures found { IfOk result (StandsAt rows.now sfid) }
    // There is no such row, and a new one would go there.
    ensures absent { IfErr result (IsGap rows.now sfid) }
{
    if is_past(rows, sfid) {
        return Err(rows.len());
    }
    if let Some(place) = packed_place(rows, sfid) {
        return Ok(place);
    }
    rows.binary_search_by_key(&sfid, |row| row.0)
}

/// Returns whether all rows have a smaller SFID.
fn is_past<V>(rows: &[(u32, V)], sfid: u32) -> bool
    requires { IsStrictlySortedBy nat_cmp (keys_of rows.now) }
    ensures { result ≡ true → IsGap rows.now sfid (length rows.now) }
{
    match rows.last() {
        Some(last) => last.0 < sfid,
        None => true,
    }
}

/// Returns where the row of an SFID is, if it is as far from the first row as its SFID from the first one.
fn packed_place<V>(rows: &[(u32, V)], sfid: u32) -> Option<usize>
    requires { IsStrictlySortedBy nat_cmp (keys_of rows.now) }
    ensures { IfSome result (StandsAt rows.now sfid) }
{
    let first = rows.first()?;
    let place = sfid.checked_sub(first.0)? as usize;
    if place < rows.len() && rows[place].0 == sfid {
        Some(place)
    } else {
        None
    }
}
