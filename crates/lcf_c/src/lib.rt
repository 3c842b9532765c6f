// The archive that C links: each call of `lcf` under its plain name, with the same clauses. They stand twice, since an
// export can't stand in a library.
#![tactic(auto)]

ghost use Rattle.std.specs.Prelude.{[], ◌≡◌};
ghost use Rattle.outcomes.specs.Outcomes.{leaves};
ghost use Rattle.outcomes.specs.Writing.{write_text, write_column};
ghost use Rattle.outcomes.specs.Reading.{read_text, read_column};
ghost use Rattle.outcomes.specs.Packing.{column_to_text, text_to_column};
ghost use Rattle.outcomes.specs.Comparing.{compare_text};
ghost use Rattle.outcomes.specs.Cutting.{cut_text};
ghost use Rattle.outcomes.specs.Stepping.{start_text, step_text};
ghost use Rattle.lcf.specs.Structs.{of_written, of_ratio, of_text, of_column, of_standing, of_started, of_stepped};
ghost use Rattle.lcf.specs.Structs.{earlier_in};
ghost use Rattle.outcomes.specs.Stocking.{stock_call, put_in, take_out, find, list_from};
ghost use Rattle.tables.specs.Layouts.{stock_rows};
ghost use Rattle.stock_structs.specs.Structs.{of_stocked, of_found, of_listed};

use lcf::{Column, Place, Ratio, Standing, Started, Stepped, Text, Written};
use stock_structs::{Found, Listed, Stocked};

#[unsafe(no_mangle)]
pub extern "C" fn lcf_write_text(numerator: u32, denominator: u32, out: &mut [u8]) -> Written
    ensures { leaves (of_written result) out.new ≡ write_text numerator denominator out.old }
{
    lcf::lcf_write_text(numerator, denominator, out)
}

#[unsafe(no_mangle)]
pub extern "C" fn lcf_write_column(numerator: u32, denominator: u32, out: &mut [u8]) -> Written
    ensures { leaves (of_written result) out.new ≡ write_column numerator denominator out.old }
{
    lcf::lcf_write_column(numerator, denominator, out)
}

#[unsafe(no_mangle)]
pub extern "C" fn lcf_read_text(key: &[u8]) -> Ratio
    ensures { leaves (of_ratio result) [] ≡ read_text key.now }
{
    lcf::lcf_read_text(key)
}

#[unsafe(no_mangle)]
pub extern "C" fn lcf_read_column(column: &[u8]) -> Ratio
    ensures { leaves (of_ratio result) [] ≡ read_column column.now }
{
    lcf::lcf_read_column(column)
}

#[unsafe(no_mangle)]
pub extern "C" fn lcf_column_to_text(column: &[u8], out: &mut [u8]) -> Text
    ensures { leaves (of_text result) out.new ≡ column_to_text column.now out.old }
{
    lcf::lcf_column_to_text(column, out)
}

#[unsafe(no_mangle)]
pub extern "C" fn lcf_text_to_column(key: &[u8], out: &mut [u8]) -> Column
    ensures { leaves (of_column result) out.new ≡ text_to_column key.now out.old }
{
    lcf::lcf_text_to_column(key, out)
}

#[unsafe(no_mangle)]
pub extern "C" fn lcf_compare(first: &[u8], second: &[u8]) -> Standing
    ensures { leaves (of_standing result) [] ≡ compare_text first.now second.now }
{
    lcf::lcf_compare(first, second)
}

// 1 for the first key, 2 for the second, 0 where comparing refuses: which of the two `compare::earlier` hands back.
#[unsafe(no_mangle)]
pub extern "C" fn lcf_earlier(first: &[u8], second: &[u8]) -> u32
    ensures { result ≡ earlier_in (compare_text first.now second.now) }
{
    lcf::lcf_earlier(first, second)
}

#[unsafe(no_mangle)]
pub extern "C" fn lcf_cut(key: &[u8], width: usize, out: &mut [u8]) -> Text
    ensures { leaves (of_text result) out.new ≡ cut_text key.now width out.old }
{
    lcf::lcf_cut(key, width, out)
}

#[unsafe(no_mangle)]
pub extern "C" fn lcf_start(key: &[u8]) -> Started
    ensures { leaves (of_started result) [] ≡ start_text key.now }
{
    lcf::lcf_start(key)
}

#[unsafe(no_mangle)]
pub extern "C" fn lcf_step(key: &[u8], place: Place) -> Stepped
    ensures { of_stepped result ≡ step_text key.now place.used place.turned }
{
    lcf::lcf_step(key, place)
}

#[unsafe(no_mangle)]
pub extern "C" fn lcf_stock_put(
    table: &mut [u8],
    used: usize,
    numerator: u32,
    denominator: u32,
    quantity: u32,
) -> Stocked
    ensures { leaves (of_stocked result) table.new
        ≡ stock_call stock_rows (put_in numerator denominator quantity) used table.old }
{
    lcf::stocking::lcf_stock_put(table, used, numerator, denominator, quantity)
}

#[unsafe(no_mangle)]
pub extern "C" fn lcf_stock_take(
    table: &mut [u8],
    used: usize,
    numerator: u32,
    denominator: u32,
    quantity: u32,
) -> Stocked
    ensures { leaves (of_stocked result) table.new
        ≡ stock_call stock_rows (take_out numerator denominator quantity) used table.old }
{
    lcf::stocking::lcf_stock_take(table, used, numerator, denominator, quantity)
}

#[unsafe(no_mangle)]
pub extern "C" fn lcf_stock_find(
    table: &[u8],
    used: usize,
    numerator: u32,
    denominator: u32,
) -> Found
    ensures { leaves (of_found result) table.now
        ≡ stock_call stock_rows (find numerator denominator) used table.now }
{
    lcf::stocking::lcf_stock_find(table, used, numerator, denominator)
}

#[unsafe(no_mangle)]
pub extern "C" fn lcf_stock_from(
    table: &[u8],
    used: usize,
    numerator: u32,
    denominator: u32,
) -> Listed
    ensures { leaves (of_listed result) table.now
        ≡ stock_call stock_rows (list_from numerator denominator) used table.now }
{
    lcf::stocking::lcf_stock_from(table, used, numerator, denominator)
}
