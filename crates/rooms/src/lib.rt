// The program's answer to the bytes at hand: a record's line, the last line, or that more bytes are needed.
#![tactic(auto)]

ghost use Rattle.rows.specs.Says.{Says};
ghost use Rattle.contract.specs.Seen.{SoundWords};
ghost use Rattle.rooms.specs.Replies.{Replies};

use commands::{Taken, sound_after, take_record};
use records::{Text, write_end, write_line};

// What was said: a line for so many bytes, written at the front of the room; the last line; that more bytes are needed; or that the room is
// shorter than a line.
// No Result: none of the four is a failure.
#[derive(Clone, Copy)]
pub enum Said {
    Line { used: usize, written: usize },
    End { written: usize },
    More,
    Room,
}

// An answer: what was said, and whether the words are a sound table after it.
// No Option: whether the words are sound says nothing of what was said.
#[derive(Clone, Copy)]
pub struct Reply {
    pub said: Said,
    pub sound: bool,
}

// Obeys the record at the front of the bytes and writes its line; `sound` says whether the words are a sound table, `ended` that no more
// bytes will come.
pub fn answer(words: &mut [u32], sound: bool, bytes: &[u8], ended: bool, out: &mut [u8]) -> Reply
    requires { Says (SoundWords words.old) sound }
    ensures replies { Replies bytes.now ended words.old words.new out.old out.new
        result.said }
    ensures says { Says (SoundWords words.new) result.sound }
{
    if out.len() < Text::LINE {
        return Reply {
            said: Said::Room,
            sound,
        };
    }
    match take_record(words, sound, bytes, ended) {
        Taken::Done { outcome, size } => {
            let written = write_line(
                out,
                0,
                outcome.operation,
                outcome.number,
                outcome.value,
                outcome.rounds,
            );
            Reply {
                said: Said::Line {
                    used: size,
                    written,
                },
                sound: sound_after(sound, outcome.number),
            }
        }
        Taken::End => {
            let written = write_end(out, 0, true);
            Reply {
                said: Said::End { written },
                sound,
            }
        }
        Taken::More => Reply {
            said: Said::More,
            sound,
        },
        Taken::Bad => {
            let written = write_end(out, 0, false);
            Reply {
                said: Said::End { written },
                sound,
            }
        }
    }
}
