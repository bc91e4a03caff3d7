// The levels of a block as a run list, for the entropy coder: the writer, the stretch of the list that it filled, and
// the reader. The contracts cite the definitions of `runs`: which symbols a block has, which lists are refused, and
// what is then held by what is lent.
#![tactic(auto)]

ghost use Rattle.std.specs.Prelude.{◌≡◌};
ghost use Rattle.refusals.specs.Faults.{verdict_outcome};
ghost use Rattle.runs.specs.Call.{writing, write_outcome, write_answer, write_list, filled_of};
ghost use Rattle.runs.specs.Call.{reading, read_verdict, read_buffer};

use coefficients::skip::largest;
use reader::{misread, read};
use refusals::Refusal;
use refusals::ranges::Side;
use writer::{count_levels, write};

// The magnitude that no level may have: its negation alone fits 16 bits.
const LOWEST: u32 = 32768;

// The levels of a square block at the front of `block`, by rows, as symbols at the front of the list; how many.
#[tactic(auto, unfolding(runs::specs::Call::write_verdict, runs::specs::Call::write_answer, runs::specs::Call::write_list))]
pub fn write_symbols(block: &[i16], log2_side: usize, list: &mut [u32]) -> Result<usize, Refusal>
    ensures answer { write_outcome result
        ≡ write_answer (writing block.now log2_side list.old) }
    ensures list { list.new
        ≡ write_list (writing block.now log2_side list.old) }
{
    let side = Side::try_from(log2_side)?;
    let a = side.length();
    let n = a * a;
    if block.len() < n {
        return Err(Refusal::Length);
    }
    let block = &block[..n];
    if largest(block) == LOWEST {
        return Err(Refusal::Sample);
    }
    let count = count_levels(block);
    if list.len() < count {
        return Err(Refusal::Room);
    }
    write(block, log2_side, list, count);
    Ok(count)
}

// The front of the list, so many places of it: what the writer filled, by the number that it answered.
#[tactic(auto, unfolding(runs::specs::Call::filled_of))]
pub fn filled(list: &[u32], count: usize) -> &[u32]
    ensures { result.now ≡ filled_of count list.now }
{
    if count <= list.len() {
        &list[..count]
    } else {
        &[]
    }
}

// The levels that the symbols of the whole list tell, by rows, in the square block at the front of `block`.
#[tactic(auto, unfolding(runs::specs::Call::read_verdict, runs::specs::Call::read_buffer))]
pub fn read_symbols(list: &[u32], block: &mut [i16], log2_side: usize) -> Result<(), Refusal>
    ensures answer { verdict_outcome result
        ≡ read_verdict (reading list.now block.old log2_side) }
    ensures block { block.new
        ≡ read_buffer (reading list.now block.old log2_side) }
{
    let side = Side::try_from(log2_side)?;
    let a = side.length();
    let n = a * a;
    if block.len() < n {
        return Err(Refusal::Length);
    }
    if misread(list, n) {
        return Err(Refusal::Symbol);
    }
    read(list, &mut block[..n], log2_side);
    Ok(())
}
