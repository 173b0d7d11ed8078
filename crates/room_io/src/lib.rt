// The program's reading and writing: records from a reader through one buffer, lines to a writer through another.
#![tactic(auto)]

ghost use Rattle.std.specs.Prelude.{◌≡◌, ◌-◌, ◌≤◌, ◌<◌, length, take, drop};
ghost use Rattle.rows.specs.Says.{Says};
ghost use Rattle.contract.specs.Seen.{SoundWords};
ghost use Rattle.rooms.specs.Replies.{line_room};
ghost use Rattle.rooms.specs.Whole.{zeros};
ghost use Rattle.room_io.specs.Places.{Placed, Refilled, Turned, longest, unwritten};
ghost use Rattle.room_io.specs.Calls.{answer_of, brought_of, ReadSays, Sums, after_read, after_write, WriteSays};
ghost use Rattle.room_io.specs.Served.{Served};

use rooms::{Said, answer};
use std::io::{self, Read, Write};

// How far the program is: the bytes at hand stand in the input buffer from `start` to `end`, and `pending` bytes at the front of the output
// buffer are still to be written. `ended`: no more bytes will come. `done`: the last line is written, or a read or a write failed.
// `sound`: the words are a sound table.
// No Option: each flag is a fact of its own, and no value hangs on it.
#[derive(Clone, Copy)]
pub struct Progress {
    pub start: usize,
    pub end: usize,
    pub pending: usize,
    pub ended: bool,
    pub done: bool,
    pub sound: bool,
}

// What a read brought: so many bytes, the end of the input, or nothing, as it failed.
// No Result of an Option: each of the three has an arm of its own in after_read, and none is handed on.
#[derive(Clone, Copy)]
pub enum Brought {
    Bytes(usize),
    End,
    Failed,
}

// What the answer of a read into the room says: above 0 so many bytes, 0 the end of the input, an error that it failed.
fn brought_of(got: io::Result<usize>, room: &[u8]) -> Brought
    ensures { result ≡ brought_of (answer_of got) (length room.now) }
{
    let Ok(count) = got else {
        return Brought::Failed;
    };
    if count > 0 {
        return Brought::Bytes(count.min(room.len()));
    }
    Brought::End
}

// Reads once into the room.
fn read_some(reader: &mut impl Read, room: &mut [u8]) -> Brought
    ensures { ReadSays (length room.new) result }
{
    let got = reader.read(room);
    brought_of(got, room)
}

// Moves the bytes from `start` to `end` to the front, and answers how many they are.
fn to_front(input: &mut [u8], start: usize, end: usize) -> usize
    requires { (start ≤ end) × (end ≤ length input.old) }
    ensures { (result ≡ end - start) × (take result input.new ≡ take result (drop start input.old)) }
{
    input.copy_within(start..end, 0);
    end - start
}

// How far the program is once `held` bytes stand at the front and a read behind them brought what it did.
fn after_read(p: Progress, held: usize, brought: Brought) -> Progress
    requires { Sums held brought }
    ensures { result ≡ after_read p held brought }
{
    match brought {
        Brought::Bytes(n) => Progress {
            start: 0,
            end: held + n,
            pending: p.pending,
            ended: false,
            done: false,
            sound: p.sound,
        },
        Brought::End => Progress {
            start: 0,
            end: held,
            pending: p.pending,
            ended: true,
            done: false,
            sound: p.sound,
        },
        Brought::Failed => Progress {
            start: 0,
            end: held,
            pending: p.pending,
            ended: true,
            done: true,
            sound: p.sound,
        },
    }
}

// More bytes after those at hand, which move to the front. There is room for more, so that a read of none is the end of the input.
fn refill(reader: &mut impl Read, input: &mut [u8], p: Progress) -> Progress
    requires { (p.start ≤ p.end) × (p.end ≤ length input.old) × (p.end - p.start < length input.old) }
    ensures refilled { Refilled p result input.old input.new }
    ensures sound_value { result.sound ≡ p.sound }
{
    let held = to_front(input, p.start, p.end);
    let brought = read_some(reader, &mut input[held..]);
    after_read(p, held, brought)
}

// How far the program is after a write of what was pending: done exactly where it failed.
fn after_write(p: Progress, written: bool) -> Progress
    ensures { result ≡ after_write p written }
{
    Progress {
        start: p.start,
        end: p.end,
        pending: 0,
        ended: p.ended,
        done: !written,
        sound: p.sound,
    }
}

// Writes the text, which is what is pending in the output buffer.
fn write_text(writer: &mut impl Write, text: &[u8], output: &[u8], p: Progress) -> Progress
    requires { text.now ≡ unwritten p output.now }
    ensures { WriteSays p result }
{
    let written = writer.write_all(text).is_ok();
    after_write(p, written)
}

// Writes what is pending.
fn flush(writer: &mut impl Write, output: &[u8], p: Progress) -> Progress
    requires { p.pending ≤ length output.now }
    ensures { WriteSays p result }
{
    let due = p.pending;
    write_text(writer, &output[..due], output, p)
}

// One answer, and the read or the write that it asks for.
fn turn(
    reader: &mut impl Read,
    writer: &mut impl Write,
    words: &mut [u32],
    input: &mut [u8],
    output: &mut [u8],
    p: Progress,
) -> Progress
    requires { Placed p (length input.old) (length output.old) × Says (SoundWords words.old) p.sound }
    ensures turned { Turned p result words.old words.new input.old input.new
        output.old output.new }
    ensures says { Says (SoundWords words.new) result.sound }
{
    let start = p.start;
    let end = p.end;
    let pending = p.pending;
    let reply = answer(
        words,
        p.sound,
        &input[start..end],
        p.ended,
        &mut output[pending..],
    );
    let said = reply.said;
    match said {
        Said::Line { used, written } => Progress {
            start: start + used,
            end,
            pending: pending + written,
            ended: p.ended,
            done: false,
            sound: reply.sound,
        },
        Said::End { written } => Progress {
            start,
            end,
            pending: pending + written,
            ended: p.ended,
            done: true,
            sound: reply.sound,
        },
        Said::More => refill(reader, input, p),
        Said::Room => flush(writer, output, p),
    }
}

// Answers records until the last line is written, on the program's words, which are no sound table yet, and through buffers that are lent;
// how far it is after the write of what is pending then.
fn serve(
    reader: &mut impl Read,
    writer: &mut impl Write,
    words: &mut [u32],
    input: &mut [u8],
    output: &mut [u8],
) -> Progress
    requires { (words.old ≡ zeros) × (longest ≤ length input.old) × (line_room ≤ length output.old) }
    ensures { Served words.old words.new input.old input.new
        output.old output.new result }
{
    let mut p = Progress {
        start: 0,
        end: 0,
        pending: 0,
        ended: false,
        done: false,
        sound: false,
    };
    let mut turns = u64::MAX;
    // Not a for: it ends where p is done; the turns are counted only so that it ends at all.
    while turns > 0 && !p.done {
        p = turn(reader, writer, words, input, output, p);
        turns -= 1;
    }
    flush(writer, output, p)
}

// Reads records to the reader's end and writes their lines to the writer; 16,384 words of zeros are lent.
pub fn run(reader: &mut impl Read, writer: &mut impl Write) {
    let mut words = [0u32; 16384];
    let mut input = [0u8; 4096];
    let mut output = [0u8; 4096];
    serve(reader, writer, &mut words, &mut input, &mut output);
}
