// A request behind its verb: fields, each a number by its kind, then the list of a verb that has one, then the samples.
ghost use Rattle.std.specs.Prelude.{◌≡◌, ◌≤◌, length, take, IfSome};
ghost use Rattle.std.specs.Option.{option_map};
ghost use Rattle.requests.specs.Request.{kinds_of, fields_of, count_of, has_list, list_kinds, list_of, exactly_of};
ghost use Rattle.requests.specs.Inner.Left.{left, Fields};

use crate::kinds::{Kind, kinds_of};
use crate::words::Words;
use numerals::number::{read_natural, read_sample};
use verbs::Verb;

// A field for each kind, in front of the array.
fn read_fields(words: &mut Words, kinds: &[Kind]) -> Option<[u64; 48]>
    requires { length kinds.now ≤ 48 }
    ensures { Fields kinds.now (left words.old) (left words.new) result }
{
    let mut fields = [0; 48];
    for (i, kind) in kinds.iter().enumerate() {
        fields[i] = kind.read(words.take_word()?)?;
    }
    Some(fields)
}

// The fields of a verb.
pub fn read_head(verb: Verb, words: &mut Words) -> Option<[u64; 48]>
    ensures { Fields (kinds_of verb) (left words.old) (left words.new) result }
{
    read_fields(words, kinds_of(verb))
}

// How many numbers or samples follow, at most `most`.
pub fn read_count(words: &mut Words, most: u64) -> Option<usize>
    ensures value { count_of most (left words.old) ≡ option_map (λ n. (n, left words.new)) result }
    ensures few { IfSome result (λ n. n ≤ most) }
{
    let n = read_natural(words.take_word()?, most)?;
    Some(n as usize)
}

// Numbers of 32 bits, as many as there is room for.
// Kept: a loop beside read_fields' and read_samples': what they share is take_word; a closure for the rest is longer.
fn read_numbers(words: &mut Words, room: &mut [u32]) -> Option<()>
    ensures { fields_of (list_kinds (length room.old)) (left words.old)
        ≡ option_map (λ _. (room.new, left words.new)) result }
{
    for place in room.iter_mut() {
        *place = Kind::Short.read(words.take_word()?)? as u32;
    }
    Some(())
}

// Whether a verb has a list.
pub fn has_list(verb: Verb) -> bool
    ensures { result ≡ has_list verb }
{
    matches!(verb, Verb::Write | Verb::Read)
}

// The list of a verb that has one: K, and K numbers, in front of the room. K is at most 4,096, as N is then 0. That of
// any other verb is empty.
pub fn read_list(verb: Verb, words: &mut Words, room: &mut [u32]) -> Option<usize>
    requires { length room.old ≡ 4096 }
    ensures value { list_of (has_list verb) (left words.old)
        ≡ option_map (λ k. (take k room.new, left words.new)) result }
    ensures few { IfSome result (λ k. k ≤ 4096) }
{
    if !has_list(verb) {
        return Some(0);
    }
    let k = read_count(words, 4096)?;
    read_numbers(words, &mut room[..k])?;
    Some(k)
}

// Samples, exactly as many as there is room for.
pub fn read_samples(words: &mut Words, room: &mut [i16]) -> Option<()>
    ensures { exactly_of (length room.old) (left words.old) ≡ option_map (λ _. room.new) result }
{
    for place in room.iter_mut() {
        *place = read_sample(words.take_word()?)?;
    }
    match words.take_word() {
        Some(_) => None,
        None => Some(()),
    }
}
