// The line protocol: one request line, one answer line, over slices. A line that is no request is answered by
// `malformed`. Each answer is the definition's, byte for byte (specs/Answer.antt).
#![tactic(auto)]

ghost use Rattle.std.specs.Prelude.{◌≡◌, ◌≤◌, None, length, MatchOption};
ghost use Rattle.std.specs.Option.{option_copied, option_map_or};
ghost use Rattle.replies.specs.Reply.{list_if, Written};
ghost use Rattle.requests.specs.Request.{has_list, asked};
ghost use Rattle.protocol.specs.Answer.{answer_to};

use calls::call;
use replies::{put_malformed, put_reply};
use requests::request::{has_list, read_count, read_head, read_list, read_samples};
use requests::words::Words;
use verbs::{Verb, read_verb};

// The bytes of the longest line.
const LONGEST: usize = 65535;

// The list of a verb that has one.
fn list_if(verb: Verb, list: &[u32]) -> Option<&[u32]>
    ensures shown { option_copied result ≡ list_if (has_list verb) list.now }
    ensures long { option_map_or (λ l. length l.now) result 0 ≤ length list.now }
{
    if has_list(verb) { Some(list) } else { None }
}

// Reads the request and makes its call: the samples are read into the room, and the call leaves its own there; so it
// does with the list. Nothing is written where the line is no request.
fn answer_asked(room: &mut [i16], list: &mut [u32], line: &[u8], out: &mut [u8]) -> Option<usize>
    requires { (length room.old ≡ 8192) × (length list.old ≡ 4096) × (length line.now ≤ 65535)
        × (length out.old ≡ 65536) }
    ensures { MatchOption result (asked line.now ≡ None) (λ n. Written (answer_to line.now) out.old out.new n) }
{
    let mut words = Words::of(line);
    let verb = read_verb(words.take_word()?)?;
    let fields = read_head(verb, &mut words)?;
    let listed = read_list(verb, &mut words, list)?;
    let most = 8192 - 2 * listed;
    let count = read_count(&mut words, most as u64)?;
    let list = &mut list[..listed];
    let samples = &mut room[..count];
    read_samples(&mut words, samples)?;
    let reply = call(verb, samples, list, &fields);
    Some(put_reply(out, reply, list_if(verb, list), samples))
}

// The answer to a line, at the start of `out`, and its length. Neither line has its newline; there is room behind the
// answer for one.
pub fn answer(line: &[u8], out: &mut [u8; 65536]) -> usize
    ensures { Written (answer_to line.now) out.old out.new result }
{
    if LONGEST < line.len() {
        return put_malformed(out);
    }
    let mut room = [0i16; 8192];
    let mut list = [0u32; 4096];
    match answer_asked(&mut room, &mut list, line, out) {
        Some(length) => length,
        None => put_malformed(out),
    }
}
