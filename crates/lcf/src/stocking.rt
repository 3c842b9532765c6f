// The calls of the stock table.
ghost use Rattle.std.specs.Prelude.{◌≡◌};
ghost use Rattle.outcomes.specs.Outcomes.{leaves};
ghost use Rattle.outcomes.specs.Stocking.{stock_call, put_in, take_out, find, list_from};
ghost use Rattle.tables.specs.Layouts.{stock_rows};
ghost use Rattle.stock_structs.specs.Structs.{of_stocked, of_found, of_listed};

use stock_structs::{Found, Listed, Stocked};

pub fn lcf_stock_put(
    table: &mut [u8],
    used: usize,
    numerator: u32,
    denominator: u32,
    quantity: u32,
) -> Stocked
    ensures { leaves (of_stocked result) table.new
        ≡ stock_call stock_rows (put_in numerator denominator quantity) used table.old }
{
    stock::put_in(table, used, numerator, denominator, quantity).into()
}

pub fn lcf_stock_take(
    table: &mut [u8],
    used: usize,
    numerator: u32,
    denominator: u32,
    quantity: u32,
) -> Stocked
    ensures { leaves (of_stocked result) table.new
        ≡ stock_call stock_rows (take_out numerator denominator quantity) used table.old }
{
    draw::take_out(table, used, numerator, denominator, quantity).into()
}

pub fn lcf_stock_find(table: &[u8], used: usize, numerator: u32, denominator: u32) -> Found
    ensures { leaves (of_found result) table.now
        ≡ stock_call stock_rows (find numerator denominator) used table.now }
{
    lookup::find(table, used, numerator, denominator).into()
}

pub fn lcf_stock_from(table: &[u8], used: usize, numerator: u32, denominator: u32) -> Listed
    ensures { leaves (of_listed result) table.now
        ≡ stock_call stock_rows (list_from numerator denominator) used table.now }
{
    lookup::list_from(table, used, numerator, denominator).into()
}
