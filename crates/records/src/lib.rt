// The record format of document 01's program: what the bytes at hand ask, and the line that is written for it.
#![tactic(auto)]

ghost use Rattle.std.specs.Prelude.{◌≡◌, true, false, [], ◌+◌, ◌*◌, ◌≤◌, length, get_or};
ghost use Rattle.book.specs.Program.{decimal, text_of, fields};
ghost use Rattle.records.specs.Record.{takes, doomed, command_in, partial, read_record, quad_at};
ghost use Rattle.records.specs.Text.{Wrote, WroteWithin, field_text, end_line};

// What a record asks; `start` is where the formula begins in the record.
#[derive(Clone, Copy)]
pub enum Command {
    Fresh { n: u32, rows: u32 },
    Relation { t: u32, start: usize },
    Set { r: u32, rounds: u32, start: usize },
    Clear { r: u32 },
    Count { r: u32 },
    Collect,
}

// What stands in the bytes at hand: nothing more, a record of which more bytes are needed, none that can be read, or a whole record.
// No Result of an Option: end and more are no failures, and none of the four is handed on.
#[derive(Clone, Copy)]
pub enum Found {
    End,
    More,
    Bad,
    Record { command: Command, size: usize },
}

// The operations of records.
#[derive(Clone, Copy)]
pub struct Operation;

impl Operation {
    pub const FRESH: u8 = 1;

    pub const RELATION: u8 = 2;

    pub const SET: u8 = 3;

    pub const CLEAR: u8 = 4;

    pub const COUNT: u8 = 5;

    pub const COLLECT: u8 = 6;
}

// The parts of a record: two length bytes L, the version, the operation, the arguments.
#[derive(Clone, Copy)]
pub struct Format;

impl Format {
    // L's range; the version and the operation are its least.
    pub const LEAST: usize = 2;

    pub const MOST: usize = 1100;

    pub const VERSION: u8 = 1;

    pub const VERSION_AT: usize = 2;

    pub const OPERATION_AT: usize = 3;

    pub const ARGUMENTS: usize = 4;

    // Where a formula begins.
    pub const RELATION_FORMULA: usize = 5;

    pub const SET_FORMULA: usize = 9;
}

// The bytes of a line.
#[derive(Clone, Copy)]
pub struct Text;

impl Text {
    // The room that a line takes at most: four numbers of ten digits, and a byte after each.
    pub const LINE: usize = 44;

    pub const SPACE: u8 = 32;

    pub const NEWLINE: u8 = 10;

    pub const ZERO: u8 = 48;
}

// The number of two bytes, big-endian.
fn pair(bytes: &[u8], at: usize) -> u16
    requires { at + 2 ≤ length bytes.now }
    ensures { result ≡ get_or bytes.now at 0 * 256 + get_or bytes.now (at + 1) 0 }
{
    (bytes[at] as u16) * 256 + bytes[at + 1] as u16
}

// The number of four bytes, big-endian.
fn quad(bytes: &[u8], at: usize) -> u32
    requires { at + 4 ≤ length bytes.now }
    ensures { result ≡ quad_at bytes.now at }
{
    (pair(bytes, at) as u32) * 65536 + pair(bytes, at + 2) as u32
}

// Whether an operation takes so many bytes of arguments.
fn takes(op: u8, count: usize) -> bool
    ensures { result ≡ takes op count }
{
    match op {
        Operation::FRESH => count == 3,
        Operation::RELATION => 1 <= count,
        Operation::SET => 5 <= count,
        Operation::CLEAR => count == 1,
        Operation::COUNT => count == 1,
        Operation::COLLECT => count == 0,
        _ => false,
    }
}

// Whether the bytes at hand are enough to say that no record can be read.
fn doomed(bytes: &[u8]) -> bool
    ensures { result ≡ doomed bytes.now }
{
    if bytes.len() < Format::VERSION_AT {
        return false;
    }
    let length = pair(bytes, 0) as usize;
    if length < Format::LEAST {
        return true;
    }
    if length > Format::MOST {
        return true;
    }
    if bytes.len() < Format::OPERATION_AT {
        return false;
    }
    if bytes[Format::VERSION_AT] != Format::VERSION {
        return true;
    }
    if bytes.len() < Format::ARGUMENTS {
        return false;
    }
    !takes(bytes[Format::OPERATION_AT], length - Format::LEAST)
}

// The command of an operation and its arguments.
fn command_in(op: u8, arguments: &[u8]) -> Command
    requires { takes op (length arguments.now) ≡ true }
    ensures { result ≡ command_in op arguments.now }
{
    match op {
        Operation::FRESH => Command::Fresh {
            n: arguments[0] as u32,
            rows: pair(arguments, 1) as u32,
        },
        Operation::RELATION => Command::Relation {
            t: arguments[0] as u32,
            start: Format::RELATION_FORMULA,
        },
        Operation::SET => Command::Set {
            r: arguments[0] as u32,
            rounds: quad(arguments, 1),
            start: Format::SET_FORMULA,
        },
        Operation::CLEAR => Command::Clear {
            r: arguments[0] as u32,
        },
        Operation::COUNT => Command::Count {
            r: arguments[0] as u32,
        },
        _ => Command::Collect,
    }
}

// What a record that is not whole means: it is cut short, or more of it will come.
fn partial(ended: bool) -> Found
    ensures { result ≡ partial ended }
{
    if ended { Found::Bad } else { Found::More }
}

// What stands in the bytes at hand; `ended` says that no more will come.
pub fn read_record(bytes: &[u8], ended: bool) -> Found
    ensures { result ≡ read_record bytes.now ended }
{
    if bytes.len() == 0 {
        if ended {
            return Found::End;
        }
        return Found::More;
    }
    if doomed(bytes) {
        return Found::Bad;
    }
    if bytes.len() < Format::ARGUMENTS {
        return partial(ended);
    }
    let size = Format::VERSION_AT + pair(bytes, 0) as usize;
    if bytes.len() < size {
        return partial(ended);
    }
    let command = command_in(bytes[Format::OPERATION_AT], &bytes[Format::ARGUMENTS..size]);
    Found::Record { command, size }
}

// Writes a number in decimal, and answers the place after it; there is room for a byte after ten digits.
// No Display: the contract says the very bytes and where they stand, in room that is lent.
fn write_number(out: &mut [u8], at: usize, x: u32) -> usize
    requires { at + 11 ≤ length out.old }
    ensures { WroteWithin 10 out.old at (decimal x) out.new result }
{
    if x < 10 {
        out[at] = Text::ZERO + x as u8;
        return at + 1;
    }
    let last = write_number(out, at, x / 10);
    out[last] = Text::ZERO + (x % 10) as u8;
    last + 1
}

// Writes a number and the byte after it, and answers the place after both.
fn write_field(out: &mut [u8], at: usize, x: u32, after: u8) -> usize
    requires { at + 11 ≤ length out.old }
    ensures { WroteWithin 11 out.old at (field_text x after) out.new result }
{
    let end = write_number(out, at, x);
    out[end] = after;
    end + 1
}

// Writes the line of a record, and answers the place after it.
pub fn write_line(out: &mut [u8], at: usize, op: u32, number: u32, value: u32, rounds: u32) -> usize
    requires { at + 44 ≤ length out.old }
    ensures { WroteWithin 44 out.old at (text_of (fields op number value rounds) []) out.new result }
{
    let second = write_field(out, at, op, Text::SPACE);
    let third = write_field(out, second, number, Text::SPACE);
    let fourth = write_field(out, third, value, Text::SPACE);
    write_field(out, fourth, rounds, Text::NEWLINE)
}

// Writes a text, and answers the place after it.
fn write_text(out: &mut [u8], at: usize, text: &[u8]) -> usize
    requires { at + length text.now ≤ length out.old }
    ensures { Wrote out.old at text.now out.new result }
{
    let end = at + text.len();
    out[at..end].copy_from_slice(text);
    end
}

// Writes the last line, and answers the place after it.
pub fn write_end(out: &mut [u8], at: usize, ok: bool) -> usize
    requires { at + 8 ≤ length out.old }
    ensures { WroteWithin 8 out.old at (text_of (end_line ok) []) out.new result }
{
    if ok {
        return write_text(out, at, b"end ok\n");
    }
    write_text(out, at, b"end bad\n")
}
