// The calls that requests ask for, made through the exports: the fields of a request as the numbers that cross to C,
// and what the call left as a reply. The reply's text is the definition's (specs/Calls.antt).
#![tactic(auto)]

ghost use Rattle.std.specs.Prelude.{◌≡◌, ◌≤◌, length, get_or, take, drop};
ghost use Rattle.replies.specs.Reply.{list_if};
ghost use Rattle.requests.specs.Request.{kinds_of, has_list, Limited};
ghost use Rattle.surface.specs.Surface.{quant_asked, QuantLeft};
ghost use Rattle.calls.specs.Calls.{component_by, trans_by, trans_text, quant_by, quant_text, qps_by, lambdas_by};
ghost use Rattle.calls.specs.Calls.{three_by, three_text, scale_by, scale_text, inverse_by, inverse_text, answered};
ghost use Rattle.calls.specs.Calls.{allowed_by, guarded_by, guarded_numbers, guarded_text, measure_by, measure_text};
ghost use Rattle.calls.specs.Calls.{write_by, write_text, read_by, read_text};
ghost use Rattle.calls.specs.Inner.Replied.{Short, ShortHeights, Parted, reply_by, Replied};

use galemosu::{
    galemosu_guarded_sub_block, galemosu_inverse, galemosu_measure, galemosu_quantise_u,
    galemosu_quantise_v, galemosu_quantise_y, galemosu_read_symbols, galemosu_scale_back,
    galemosu_sub_block, galemosu_transform, galemosu_write_symbols,
};
use numerals::number::double_of;
use replies::Reply;
use verbs::Verb;

// The 28 costs that stand from field i on.
fn costs_from(fields: &[u64; 48], i: usize) -> [u64; 28]
    requires { i ≤ 20 }
    ensures { result ≡ take 28 (drop i fields.now) }
{
    let mut costs = [0; 28];
    costs.copy_from_slice(&fields[i..i + 28]);
    costs
}

// What a call left: the numbers of its answer where its result is 0, else the result and the component.
fn reply_by(res: u32, component: u64, count: usize, numbers: [u64; 12]) -> Reply
    ensures { result ≡ reply_by res component count numbers }
{
    if res == 0 {
        return Reply {
            accepted: true,
            count,
            numbers,
        };
    }
    Reply {
        accepted: false,
        count: 2,
        numbers: [res as u64, component, 0, 0, 0, 0, 0, 0, 0, 0, 0, 0],
    }
}

fn call_transform(room: &mut [i16], fields: &[u64; 48]) -> Reply
    ensures { Replied (trans_text (trans_by fields.now room.old))
        room.old result None room.new }
{
    let result = galemosu_transform(room, fields[0] as usize, fields[1] as usize);
    reply_by(result, 0, 0, [0; 12])
}

// The export of the component that a field names.
fn quantise_by(
    component: u64,
    room: &mut [i16],
    log2: usize,
    qp: u32,
    lambda: f64,
    flags: u32,
    costs: &[u64; 28],
    answer: &mut [u64; 3],
) -> u32
    ensures { QuantLeft
        (quant_asked (component_by component) room.old log2 qp lambda flags costs.now)
        result answer.new room.new }
{
    match component {
        0 => galemosu_quantise_y(room, log2, qp, lambda, flags, costs, answer),
        1 => galemosu_quantise_u(room, log2, qp, lambda, flags, costs, answer),
        _ => galemosu_quantise_v(room, log2, qp, lambda, flags, costs, answer),
    }
}

fn call_quantise(room: &mut [i16], fields: &[u64; 48]) -> Reply
    requires { Short fields.now 2 × Short fields.now 4 }
    ensures { Replied (quant_text (quant_by fields.now room.old))
        room.old result None room.new }
{
    let lambda = double_of(fields[3]);
    let costs = costs_from(fields, 5);
    let mut answer = [0u64; 3];
    let result = quantise_by(
        fields[0],
        room,
        fields[1] as usize,
        fields[2] as u32,
        lambda,
        fields[4] as u32,
        &costs,
        &mut answer,
    );
    reply_by(
        result,
        answer[0],
        2,
        [answer[1], answer[2], 0, 0, 0, 0, 0, 0, 0, 0, 0, 0],
    )
}

// The QPs of Y, U and V.
fn qps_of(fields: &[u64; 48]) -> [u32; 3]
    requires { Short fields.now 2 × Short fields.now 4 × Short fields.now 6 }
    ensures { result ≡ qps_by fields.now }
{
    [fields[2] as u32, fields[4] as u32, fields[6] as u32]
}

// The lambdas of Y, U and V.
fn lambdas_of(fields: &[u64; 48]) -> [f64; 3]
    ensures { result ≡ lambdas_by fields.now }
{
    [
        double_of(fields[3]),
        double_of(fields[5]),
        double_of(fields[7]),
    ]
}

fn call_sub_block(room: &mut [i16], fields: &[u64; 48]) -> Reply
    requires { Short fields.now 1 × Short fields.now 2 × Short fields.now 4 × Short fields.now 6 × Short fields.now 8 }
    ensures { Replied (three_text (three_by fields.now room.old))
        room.old result None room.new }
{
    let qp = qps_of(fields);
    let lambda = lambdas_of(fields);
    let costs = costs_from(fields, 9);
    let mut answer = [0u64; 7];
    let result = galemosu_sub_block(
        room,
        fields[0] as usize,
        &qp,
        &lambda,
        fields[1] as u32,
        fields[8] as u32,
        &costs,
        &mut answer,
    );
    reply_by(
        result,
        answer[0],
        6,
        [
            answer[1], answer[4], answer[2], answer[5], answer[3], answer[6], 0, 0, 0, 0, 0, 0,
        ],
    )
}

fn call_scale_back(room: &mut [i16], fields: &[u64; 48]) -> Reply
    requires { Short fields.now 1 }
    ensures { Replied (scale_text (scale_by fields.now room.old))
        room.old result None room.new }
{
    let result = galemosu_scale_back(room, fields[0] as usize, fields[1] as u32);
    reply_by(result, 0, 0, [0; 12])
}

fn call_inverse(room: &mut [i16], fields: &[u64; 48]) -> Reply
    ensures { Replied (inverse_text (inverse_by fields.now room.old))
        room.old result None room.new }
{
    let result = galemosu_inverse(room, fields[0] as usize, fields[1] as usize);
    reply_by(result, 0, 0, [0; 12])
}

// The six heights.
fn heights_in(fields: &[u64; 48]) -> [u32; 6]
    requires { ShortHeights fields.now }
    ensures { result ≡ allowed_by fields.now }
{
    [
        fields[9] as u32,
        fields[10] as u32,
        fields[11] as u32,
        fields[12] as u32,
        fields[13] as u32,
        fields[14] as u32,
    ]
}

// What the guarded call answered, in the line's order.
fn reply_guarded(res: u32, answer: &[u64; 13]) -> Reply
    ensures { result ≡ reply_by res (get_or answer.now 0 0) 12 (guarded_numbers answer.now) }
{
    let numbers = [
        answer[1], answer[4], answer[2], answer[5], answer[3], answer[6], answer[7], answer[8],
        answer[9], answer[10], answer[11], answer[12],
    ];
    reply_by(res, answer[0], 12, numbers)
}

fn call_guarded(room: &mut [i16], fields: &[u64; 48]) -> Reply
    requires { Short fields.now 1 × Short fields.now 2 × Short fields.now 4 × Short fields.now 6
        × Short fields.now 8 × ShortHeights fields.now }
    ensures { Replied (guarded_text (guarded_by fields.now room.old))
        room.old result None room.new }
{
    let qp = qps_of(fields);
    let lambda = lambdas_of(fields);
    let costs = costs_from(fields, 15);
    let heights = heights_in(fields);
    let mut answer = [0u64; 13];
    let result = galemosu_guarded_sub_block(
        room,
        fields[0] as usize,
        &qp,
        &lambda,
        fields[1] as u32,
        fields[8] as u32,
        &costs,
        &heights,
        &mut answer,
    );
    reply_guarded(result, &answer)
}

// How many of the samples are residuals, where so many are wanted.
fn parted(room: &[i16], wanted: usize) -> usize
    ensures { Parted room.now wanted result }
{
    wanted.min(room.len())
}

fn call_measure(room: &[i16], fields: &[u64; 48]) -> Reply
    requires { Short fields.now 1 × Short fields.now 2 }
    ensures { Replied (measure_text (measure_by fields.now room.now) room.now)
        room.now result None room.now }
{
    let n = parted(room, fields[3] as usize);
    let mut answer = [0u64; 2];
    let result = galemosu_measure(
        &room[..n],
        &room[n..],
        fields[0] as usize,
        fields[1] as u32,
        fields[2] as u32,
        &mut answer,
    );
    reply_by(
        result,
        0,
        2,
        [answer[0], answer[1], 0, 0, 0, 0, 0, 0, 0, 0, 0, 0],
    )
}

fn call_write(room: &[i16], list: &mut [u32], fields: &[u64; 48]) -> Reply
    ensures { Replied (write_text (write_by fields.now list.old room.now))
        room.now result (Some list.new) room.now }
{
    let mut answer = [0u64; 1];
    let result = galemosu_write_symbols(room, fields[0] as usize, list, &mut answer);
    reply_by(result, 0, 1, [answer[0], 0, 0, 0, 0, 0, 0, 0, 0, 0, 0, 0])
}

fn call_read(room: &mut [i16], list: &[u32], fields: &[u64; 48]) -> Reply
    ensures { Replied (read_text (read_by fields.now list.now room.old))
        room.old result (Some list.now) room.new }
{
    let result = galemosu_read_symbols(list, room, fields[0] as usize);
    reply_by(result, 0, 0, [0; 12])
}

// The fields are those of the verb, in their order, each within its limit. The list is used where the verb has one.
pub fn call(verb: Verb, room: &mut [i16], list: &mut [u32], fields: &[u64; 48]) -> Reply
    requires { Limited (kinds_of verb) fields.now }
    ensures { Replied
        (answered verb (take (length (kinds_of verb)) fields.now) list.old room.old)
        room.old result (list_if (has_list verb) list.new) room.new }
{
    match verb {
        Verb::Transform => call_transform(room, fields),
        Verb::Quantise => call_quantise(room, fields),
        Verb::SubBlock => call_sub_block(room, fields),
        Verb::ScaleBack => call_scale_back(room, fields),
        Verb::Inverse => call_inverse(room, fields),
        Verb::Guarded => call_guarded(room, fields),
        Verb::Measure => call_measure(room, fields),
        Verb::Write => call_write(room, list, fields),
        Verb::Read => call_read(room, list, fields),
    }
}
