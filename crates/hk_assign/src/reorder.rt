//! Sheets with their high tasks in another order.
ghost use Rattle.std.specs.Prelude.{◌≡◌, ◌<◌, ◌≤◌, length, slice_index, Contains};
ghost use Rattle.hk_assign.specs.Orders.{IsOrder};
ghost use Rattle.hk_assign.specs.Sheets.{highs_at, in_sheet_order};

use crate::assignment::indices;
use crate::order::Order;
use hk_sheet::{High, Sheet};

/// A place at which a number stands.
fn place_of(numbers: &[u8], number: u8) -> usize
    requires { Contains numbers.now number }
    ensures within { result < length numbers.now }
    ensures found { slice_index numbers.now result ≡ number }
{
    for place in 0..numbers.len() {
        if numbers[place] == number {
            return place;
        }
    }
    unreachable!()
}

/// Puts tasks into an order.
fn put_in_order(tasks: &mut [High], order: &Order)
    requires few { length tasks.old ≤ 31 }
    requires order { IsOrder (length tasks.old) order.now }
    ensures { tasks.new ≡ highs_at tasks.old order.now }
{
    let count = tasks.len();
    // which task stands at each place
    let mut standing = indices(count);
    let standing = &mut standing[..count];
    for place in 0..count {
        let other = place_of(standing, order.at(place as u8));
        standing.swap(place, other);
        tasks.swap(place, other);
    }
}

/// A sheet with its high tasks in an order.
pub(crate) fn in_order(sheet: Sheet, order: &Order) -> Sheet
    requires few { length sheet.high ≤ 31 }
    requires order { IsOrder (length sheet.high) order.now }
    ensures { result ≡ in_sheet_order sheet order.now }
{
    let mut sheet = sheet;
    put_in_order(&mut sheet.high.items, order);
    sheet
}
