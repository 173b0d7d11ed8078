// A whole list of calls, given as records in a byte slice, over lent words.
#![tactic(auto)]

ghost use Rattle.std.specs.Prelude.{◌≡◌, ◌+◌, ◌≤◌, ◌<◌, length};
ghost use Rattle.std.proofs.lemmas.List.Edits.{sets};
ghost use Rattle.rows.specs.Says.{Says};
ghost use Rattle.contract.specs.Seen.{SoundWords};
ghost use Rattle.player.specs.Play.{SizePost, CountPost, entry_words, outcome_words, NextPost, AllPre, AllPost, PlayPost, NextPre};

use commands::{Outcome, Taken, sound_after, take_record};
use records::{Found, read_record};
use soundness::sound;

// Why a list of calls was not played, with nothing changed: there was no room for the outcomes, or a record could not be read.
#[derive(Clone, Copy)]
pub enum Unplayed {
    Short,
    Unreadable,
}

// A record that was obeyed: its size, and whether the words are a sound table after it.
// No Option: whether the words are sound says nothing of whether there is a size.
#[derive(Clone, Copy)]
struct Step {
    size: usize,
    sound: bool,
}

// The words of an outcome in the list: number, node, rounds, value, peak.
#[derive(Clone, Copy)]
pub struct Entry;

impl Entry {
    pub const WORDS: usize = 5;
}

// The size of the record at the front of the bytes, none where none can be read.
fn record_size(bytes: &[u8]) -> Option<usize>
    ensures { SizePost bytes.now result }
{
    match read_record(bytes, true) {
        Found::Record { size, .. } => Some(size),
        Found::End | Found::More | Found::Bad => None,
    }
}

// How many records there are, one after the other; none where one cannot be read.
fn count_records(bytes: &[u8]) -> Option<usize>
    ensures { CountPost bytes.now result }
{
    let mut at = 0;
    let mut count = 0;
    // Not a for: how long a record is, it says.
    while at < bytes.len() {
        at += record_size(&bytes[at..])?;
        count += 1;
    }
    Some(count)
}

// Writes an outcome to the list.
fn put_outcome(list: &mut [u32], at: usize, x: Outcome)
    requires { at + entry_words ≤ length list.old }
    ensures { list.new ≡ sets list.old at (outcome_words x) }
{
    list[at] = x.number;
    list[at + 1] = x.node;
    list[at + 2] = x.rounds;
    list[at + 3] = x.value;
    list[at + 4] = x.peak;
}

// Obeys the record at the front of the bytes, and writes its outcome to the list; `sound` says whether the words are a sound table.
fn obey_next(words: &mut [u32], sound: bool, bytes: &[u8], list: &mut [u32], at: usize) -> Step
    requires { NextPre bytes.now words.old list.old at sound }
    ensures next_post { NextPost bytes.now words.old words.new list.old list.new
        at result.size }
    ensures says { Says (SoundWords words.new) result.sound }
{
    match take_record(words, sound, bytes, true) {
        Taken::Done { outcome, size } => {
            put_outcome(list, at, outcome);
            Step {
                size,
                sound: sound_after(sound, outcome.number),
            }
        }
        Taken::End => Step { size: 0, sound },
        Taken::More => Step { size: 0, sound },
        Taken::Bad => Step { size: 0, sound },
    }
}

// Obeys all records and writes their outcomes to the list. Whether the words are a sound table is decided once; after a record it is known.
fn obey_all(words: &mut [u32], bytes: &[u8], list: &mut [u32])
    requires { AllPre bytes.now list.old }
    ensures { AllPost bytes.now words.old words.new list.old list.new }
{
    let mut is_sound = sound(words);
    let mut at = 0;
    let mut next = 0;
    while at < bytes.len() {
        let step = obey_next(words, is_sound, &bytes[at..], list, next);
        is_sound = step.sound;
        at += step.size;
        next += Entry::WORDS;
    }
}

// Plays the calls of all records in order, writes number, node, rounds, value and peak of each to the list, and answers how many they were.
pub fn play(words: &mut [u32], bytes: &[u8], list: &mut [u32]) -> Result<usize, Unplayed>
    ensures { PlayPost bytes.now words.old words.new list.old list.new result }
{
    let Some(count) = count_records(bytes) else {
        return Err(Unplayed::Unreadable);
    };
    if list.len() / Entry::WORDS < count {
        return Err(Unplayed::Short);
    }
    if count == 0 {
        return Ok(0);
    }
    obey_all(words, bytes, list);
    Ok(count)
}
