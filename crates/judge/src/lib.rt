// Judges the memory of a stock table, and reads its rows.
#![tactic(auto)]

ghost use Rattle.std.specs.Prelude.{◌≡◌, ◌+◌, ◌*◌, ◌^◌, ◌≤◌, ◌<◌, ◌&&◌, not, eqb, length};
ghost use Rattle.tables.specs.Layouts.{stock_rows};
ghost use Rattle.tables.specs.Rows.{row_size, rows_in};
ghost use Rattle.tables.specs.Moves.{row_at};
ghost use Rattle.outcomes.specs.BlockOrder.{block_below};
ghost use Rattle.outcomes.specs.Stocking.{wrong_size};
ghost use Rattle.judge.specs.Judging.{falls_at, passed_at, judged_rows, judged};

use blocks::Block;
use refusals::Refusal;
use spell::Spelled;
use tables::Row;

mod row;

// Row i; a row of zeros where memory has none.
#[tactic(auto, unfolding(tables::specs::Moves::row_at))]
pub fn row_at(m: &[u8], i: usize) -> Row
    ensures { result ≡ row_at stock_rows i m.now }
{
    if i < m.len() / Row::SIZE {
        return row::row_from(m, Row::SIZE * i);
    }
    Row {
        numerator: 0,
        denominator: 0,
        quantity: 0,
    }
}

// Whether a key stands before another. The high words nearly always decide, and branches ask them alone. The derived
// `<` becomes code without branches, of 12 instructions a row more: judging then misses its bar of 1.05 times plain C.
pub fn is_below(a: Block, b: Block) -> bool
    ensures { result ≡ block_below a b }
{
    if a.high < b.high {
        return true;
    }
    if b.high < a.high {
        return false;
    }
    a.low < b.low
}

// Whether the key of row i doesn't stand behind that of the row before it. The first row has none before it, as its
// index tells: an `Option` of the key before takes 8 instructions a row more, and the bar is missed as well.
fn falls(i: usize, last: Block, block: Block) -> bool
    ensures { result ≡ falls_at i last block }
{
    i != 0 && !is_below(last, block)
}

// How many rows at the front stand before a key, where below of the i rows in front of this one do.
fn pass(below: usize, i: usize, block: Block, key: Block) -> usize
    requires { i + 1 < 2 ^ 64 }
    ensures { result ≡ passed_at below i block key }
{
    if below == i && is_below(block, key) {
        i + 1
    } else {
        below
    }
}

// Whether a row whose ratio is spelled has lowest terms and a quantity.
fn is_good(row: Row, spelled: Spelled) -> bool
    ensures { result ≡ (eqb spelled.divisor 1 && not (eqb row.quantity 0)) }
{
    spelled.divisor == 1 && row.quantity != 0
}

// Judges the used rows: lowest terms, denominator and quantity of at least 1, strictly rising ratio. One Euclid a row
// gives its key and its greatest common divisor.
fn judge_rows(m: &[u8], used: usize, key: Block) -> Result<usize, Refusal>
    requires { row_size stock_rows * used ≤ length m.now }
    ensures { result ≡ judged_rows key (rows_in (row_size stock_rows) used m.now) }
{
    let mut last = Block { high: 0, low: 0 };
    let mut below = 0;
    for i in 0..used {
        let row = row::row_from(m, Row::SIZE * i);
        let Ok(spelled) = spell::spell(row.numerator, row.denominator) else {
            return Err(Refusal::UnsoundTable);
        };
        if !is_good(row, spelled) || falls(i, last, spelled.block) {
            return Err(Refusal::UnsoundTable);
        }
        below = pass(below, i, spelled.block, key);
        last = spelled.block;
    }
    Ok(below)
}

// Whether memory of this many bytes isn't of 1 to 2,048 whole rows.
fn is_wrong(length: usize) -> bool
    ensures { result ≡ wrong_size (row_size stock_rows) length }
{
    let room = length / Row::SIZE;
    length % Row::SIZE != 0 || room == 0 || 2048 < room
}

// Judges memory of which so many rows are said to be used, for a call that asks where a key stands.
#[tactic(auto, using(crate::specs::Passing::judged_rows_lem), unfolding(crate::specs::Judging::judged))]
pub fn judge(m: &[u8], used: usize, key: Block) -> Result<usize, Refusal>
    ensures { result ≡ judged key used m.now }
{
    if is_wrong(m.len()) {
        return Err(Refusal::WrongSize);
    }
    if m.len() / Row::SIZE < used {
        return Err(Refusal::UnsoundTable);
    }
    judge_rows(m, used, key)
}
