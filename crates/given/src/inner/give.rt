// An answer as the number that a call returns and the numbers behind its pointers: refusals and orders are numbers here, as C knows them.
ghost use Rattle.std.specs.Prelude.{◌≡◌};
ghost use Rattle.codes.specs.Answers.{says_by, word128_says};
ghost use Rattle.codes.specs.Refusals.{number, number_of};
ghost use Rattle.given.specs.Face.{said};
ghost use Rattle.given.specs.Parts.{part_says};
ghost use Rattle.forms.specs.Answers.{wrote_says, restored_says};
ghost use Rattle.order.specs.Answers.{compared_says, found_says};
ghost use Rattle.order.specs.Order.{order_number};
ghost use Rattle.stores.specs.Answers.{pushed_says, kept_says};
ghost use Rattle.streams.specs.Answers.{shape_says, filled_says};
ghost use Rattle.twobit.specs.Answers.{cursor_says, entry_says, info_says, read_says};
ghost use Rattle.twowrite.specs.Answers.{started_says, stepped_says};
ghost use Rattle.twowrite.specs.Writing.{writing};

use crate::inner::parts::{NO_PART, Part};
use codes::inner::bits::Pair;
use codes::refusals::{self, Refusal};
use codes::units::{Bytes, Chars};
use order::answers::Compared;
use std::cmp::Ordering;
use stores::answers::{Pushed, Unchanged};
use streams::answers::{Filled, Shape};
use twobit::answers::{Cursor, Entry, Info, Read};
use twowrite::answers::{Stepped, Writing};

fn refusal_no(refusal: Refusal) -> u32
    ensures { result ≡ number refusal }
{
    refusal.number() as u32
}

pub fn no(outcome: Result<(), Refusal>) -> u32
    ensures { result ≡ number_of outcome }
{
    refusals::number_of(outcome) as u32
}

// The number of a result, and its value, or `zeros` beside a refusal.
pub fn split<T: Copy>(answer: Result<T, Refusal>, zeros: T) -> (u32, T)
    ensures { said result.0 result.1 ≡ says_by (λ x. x) zeros answer }
{
    match answer {
        Ok(value) => (0, value),
        Err(refusal) => (refusal_no(refusal), zeros),
    }
}

fn order_no(order: Ordering) -> i32
    ensures { result ≡ order_number order }
{
    match order {
        Ordering::Less => -1,
        Ordering::Equal => 0,
        Ordering::Greater => 1,
    }
}

// A result of one number.
pub fn number<T: Copy>(answer: Result<T, Refusal>, zero: T, to: &mut T) -> u32
    ensures { said result to.new ≡ says_by (λ x. x) zero answer }
{
    let (no, value) = split(answer, zero);
    *to = value;
    no
}

pub fn word128(answer: Result<Pair, Refusal>, low: &mut u64, high: &mut u64) -> u32
    ensures { said result (low.new, high.new) ≡ word128_says answer }
{
    let (no, pair) = split(answer, Pair { low: 0, high: 0 });
    *low = pair.low;
    *high = pair.high;
    no
}

pub fn compared(answer: Result<Compared, Refusal>, order: &mut i32, common: &mut usize) -> u32
    ensures { said result (order.new, common.new) ≡ compared_says answer }
{
    let none = Compared {
        order: Ordering::Equal,
        common: Chars::new(0),
    };
    let (no, compared) = split(answer, none);
    *order = order_no(compared.order);
    *common = compared.common.count();
    no
}

pub fn found(answer: Result<Option<Chars>, Refusal>, there: &mut bool, place: &mut usize) -> u32
    ensures { said result (there.new, place.new) ≡ found_says answer }
{
    let (no, found) = split(answer, None);
    match found {
        Some(at) => {
            *there = true;
            *place = at.count();
        }
        None => {
            *there = false;
            *place = 0;
        }
    }
    no
}

pub fn pushed(
    answer: Result<Pushed, Unchanged>,
    start: &mut usize,
    end: &mut usize,
    len: &mut usize,
) -> u32
    ensures { said result (start.new, end.new, len.new) ≡ pushed_says answer }
{
    match answer {
        Ok(Pushed { start: a, end: b }) => {
            *start = a.count();
            *end = b.count();
            *len = b.count();
            0
        }
        Err(Unchanged { refusal, len: old }) => {
            *start = 0;
            *end = 0;
            *len = old.count();
            refusal_no(refusal)
        }
    }
}

pub fn kept(answer: Result<Chars, Unchanged>, len: &mut usize) -> u32
    ensures { said result (0, 0, len.new) ≡ kept_says answer }
{
    match answer {
        Ok(new) => {
            *len = new.count();
            0
        }
        Err(Unchanged { refusal, len: same }) => {
            *len = same.count();
            refusal_no(refusal)
        }
    }
}

pub fn shape(
    answer: Result<Shape, Refusal>,
    lane: &mut usize,
    steps: &mut usize,
    padding: &mut usize,
) -> u32
    ensures { said result (lane.new, steps.new, padding.new) ≡ shape_says answer }
{
    let none = Shape {
        lane: Chars::new(0),
        steps: 0,
        padding: Chars::new(0),
    };
    let (no, shape) = split(answer, none);
    *lane = shape.lane.count();
    *steps = shape.steps;
    *padding = shape.padding.count();
    no
}

pub fn filled(answer: Result<Filled, Refusal>, steps: &mut usize, padding: &mut usize) -> u32
    ensures { said result (steps.new, padding.new) ≡ filled_says answer }
{
    let none = Filled {
        steps: 0,
        padding: Chars::new(0),
    };
    let (no, filled) = split(answer, none);
    *steps = filled.steps;
    *padding = filled.padding.count();
    no
}

pub fn wrote(answer: Result<Bytes, Refusal>, written: &mut usize) -> u32
    ensures { said result written.new ≡ wrote_says answer }
{
    let (no, bytes) = split(answer, Bytes::new(0));
    *written = bytes.count();
    no
}

pub fn restored(answer: Result<Chars, Refusal>, len: &mut usize) -> u32
    ensures { said result len.new ≡ restored_says answer }
{
    let (no, chars) = split(answer, Chars::new(0));
    *len = chars.count();
    no
}

pub fn cursor(answer: Result<Cursor, Refusal>, number: &mut usize, at: &mut usize) -> u32
    ensures { said result (number.new, at.new) ≡ cursor_says answer }
{
    let (no, cursor) = split(answer, Cursor { number: 0, at: 0 });
    *number = cursor.number;
    *at = cursor.at;
    no
}

pub fn entry(
    answer: Result<Entry, Refusal>,
    name: &mut usize,
    size: &mut usize,
    offset: &mut usize,
    number: &mut usize,
    at: &mut usize,
) -> u32
    ensures { said result ((name.new, size.new), (offset.new, (number.new, at.new))) ≡ entry_says answer }
{
    let none = Entry {
        name: 0,
        size: 0,
        offset: 0,
        number: 0,
        at: 0,
    };
    let (no, entry) = split(answer, none);
    *name = entry.name;
    *size = entry.size;
    *offset = entry.offset;
    *number = entry.number;
    *at = entry.at;
    no
}

pub fn info(
    answer: Result<Info, Refusal>,
    len: &mut usize,
    blocks: &mut usize,
    masks: &mut usize,
) -> u32
    ensures { said result (len.new, (blocks.new, masks.new)) ≡ info_says answer }
{
    let none = Info {
        len: Chars::new(0),
        blocks: 0,
        masks: 0,
    };
    let (no, info) = split(answer, none);
    *len = info.len.count();
    *blocks = info.blocks;
    *masks = info.masks;
    no
}

pub fn sequence(answer: Result<Read, Refusal>, len: &mut usize, masks: &mut usize) -> u32
    ensures { said result (len.new, masks.new) ≡ read_says answer }
{
    let none = Read {
        len: Chars::new(0),
        masks: 0,
    };
    let (no, read) = split(answer, none);
    *len = read.len.count();
    *masks = read.masks;
    no
}

// The state of a file that is started.
pub fn started(
    answer: Result<Writing, Refusal>,
    entry: &mut usize,
    stop: &mut usize,
    place: &mut usize,
    left: &mut usize,
) -> u32
    ensures { said result (writing entry.new stop.new place.new left.new) ≡ started_says answer }
{
    let none = Writing {
        entry: 0,
        stop: 0,
        place: 0,
        left: 0,
    };
    let (no, state) = split(answer, none);
    *stop = state.stop;
    *entry = state.entry;
    *place = state.place;
    *left = state.left;
    no
}

// The state of a file that is written. Where its index ends is the caller's already, but at the start.
pub fn stepped(answer: Stepped, entry: &mut usize, place: &mut usize, left: &mut usize) -> u32
    ensures { said result (writing entry.new answer.state.stop place.new left.new) ≡ stepped_says answer }
{
    let state = answer.state;
    *entry = state.entry;
    *place = state.place;
    *left = state.left;
    no(answer.outcome)
}

// A part that is handed back.
pub fn part(
    answer: Result<Part, Refusal>,
    at: &mut usize,
    size: &mut usize,
    offset: &mut usize,
    len: &mut usize,
) -> u32
    ensures { said result (at.new, size.new, offset.new, len.new) ≡ part_says answer }
{
    let (no, part) = split(answer, NO_PART);
    part.give(at, size, offset, len);
    no
}
