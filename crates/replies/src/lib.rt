// The answer lines of the protocol, written from the start of the room for them. What is written is, byte for byte, the
// line that specs/Reply.antt defines, for all answers and all samples.
#![tactic(auto)]

ghost use Rattle.std.specs.Prelude.{◌≡◌, ℕ, List, ◌+◌, ◌*◌, ◌≤◌, length, take};
ghost use Rattle.std.specs.Option.{option_copied, option_map_or};
ghost use Rattle.text.specs.Text.{printed, printed_sample, Put};
ghost use Rattle.replies.specs.Reply.{spaced, verdict_text, list_text, reply_text, malformed_text, Written};

use text::{put_natural, put_sample, put_word};

// What stands before the colon: whether the call was accepted, and the first `count` numbers of the array.
// Kept: a count beside an array, as calls answer from none to twelve numbers and the protocol has no heap.
#[derive(Drop)]
pub struct Reply {
    pub accepted: bool,
    pub count: usize,
    pub numbers: [u64; 12],
}

pub fn put_malformed(out: &mut [u8]) -> usize
    requires { length out.old ≡ 65536 }
    ensures { Written malformed_text out.old out.new result }
{
    put_word(out, 0, b"malformed")
}

fn put_verdict(out: &mut [u8], accepted: bool) -> usize
    requires { length out.old ≡ 65536 }
    ensures { Put out.old 0 (verdict_text accepted) 8 out.new result }
{
    if accepted {
        return put_word(out, 0, b"accepted");
    }
    put_word(out, 0, b"refused")
}

// What stands in a reply: a number or a sample, as a text of so many bytes at most.
trait Shown: Copy {
    ghost text: { Self → List ℕ };

    ghost most: { ℕ };

    fn put(self, out: &mut [u8], at: usize) -> usize
        requires { at + 21 ≤ length out.old }
        ensures { Put out.old at (text self) most out.new result };
}

impl Shown for u64 {
    ghost text = { printed };

    ghost most = { 20 };

    fn put(self, out: &mut [u8], at: usize) -> usize {
        put_natural(out, at, self)
    }
}

impl Shown for u32 {
    ghost text = { printed };

    ghost most = { 10 };

    fn put(self, out: &mut [u8], at: usize) -> usize {
        put_natural(out, at, u64::from(self))
    }
}

impl Shown for i16 {
    ghost text = { printed_sample };

    ghost most = { 6 };

    fn put(self, out: &mut [u8], at: usize) -> usize {
        put_sample(out, at, self)
    }
}

// A space and a text for each.
fn put_each<T: Shown>(out: &mut [u8], at: usize, items: &[T]) -> usize
    requires { at + (T.most + 1) * length items.now + 21 ≤ length out.old }
    ensures { Put out.old at (spaced T.text items.now) ((T.most + 1) * length items.now) out.new result }
{
    let mut next = at;
    for item in items {
        out[next] = b' ';
        next = item.put(out, next + 1);
    }
    next
}

// The list of a call that has one, behind a colon.
fn put_list(out: &mut [u8], at: usize, list: Option<&[u32]>) -> usize
    requires { (at ≤ 260) × (option_map_or (λ l. length l.now) list 0 ≤ 4096) × (length out.old ≡ 65536) }
    ensures { Put out.old at (list_text (option_copied list.entry))
        (2 + 11 * option_map_or (λ l. length l.now) list.entry 0) out.new result }
{
    let Some(list) = list else {
        return at;
    };
    let parted = put_word(out, at, b" :");
    put_each(out, parted, list)
}

// The whole answer: what a call answered, its list, if it has one, and the buffer as it left them.
pub fn put_reply(out: &mut [u8], reply: Reply, list: Option<&[u32]>, samples: &[i16]) -> usize
    requires { (reply.count ≤ 12) × (2 * option_map_or (λ l. length l.now) list 0 + length samples.now ≤ 8192)
        × (length out.old ≡ 65536) }
    ensures { Written (reply_text reply.accepted (take reply.count reply.numbers)
        (option_copied list.entry) samples.now) out.old out.new result }
{
    let numbers = reply.numbers;
    let told = put_verdict(out, reply.accepted);
    let counted = put_each(out, told, &numbers[..reply.count]);
    let behind = put_list(out, counted, list);
    let parted = put_word(out, behind, b" :");
    put_each(out, parted, samples)
}
