// Answers taps on the map of `atlas.bin`, a line of standard input each (document 01, 'Two programs').

#![tactic(auto)]

ghost use Rattle.tap.specs.Counts.{IsPrefixLen};

use atlas_file::MOST_PLACES;
use place::Place;
use programs::{FILE_SIZE, PART_SIZE};
use sheet::Sheet;
use std::fs;
use text::Line;

fn main(rt: HostRuntime) {
    let mut file = [0u8; FILE_SIZE];
    let length = read_atlas(&rt, &mut file);
    answer_taps(&rt, &file[..length]);
}

// Reads `atlas.bin`; what cannot be opened counts as empty, and a read that fails is its end. It is closed before anything else is read or
// written, so that it stands in for no standard stream that was closed.
fn read_atlas(rt: &HostRuntime, file: &mut [u8; FILE_SIZE]) -> usize
    ensures { IsPrefixLen result file.new }
{
    match fs::open(rt, "atlas.bin") {
        Ok(mut opened) => streams::read_full(&mut opened, file),
        Err(_) => 0,
    }
}

// Answers taps on a file's map, or tells why it is refused.
fn answer_taps(rt: &HostRuntime, file: &[u8]) {
    let mut table = [place::blank(); MOST_PLACES];
    match atlas::read(file, &mut table) {
        Ok(atlas) => {
            answer_lines(rt, atlas.sheet, &table[..atlas.count]);
        }
        Err(why) => {
            print(rt, text::file_refused_line(why.refusal, why.offset));
        }
    }
}

// Answers each line of standard input by the places of a table, until the input ends or cannot be read, or an answer cannot be written. A proved
// loop has to end: this one ends after 2^64 - 1 reads, more than any run has, as at the end of the input.
fn answer_lines(rt: &HostRuntime, sheet: Sheet, table: &[Place]) {
    let mut begun = programs::begin();
    let mut out = [0u8; 65536];
    for _ in 0..u64::MAX {
        let mut input = [0u8; PART_SIZE];
        let filled = read_some(rt, &mut input);
        if filled == 0 {
            break;
        }
        let end = programs::answers(sheet, table, &mut begun, &input[..filled], &mut out);
        if !streams::write_all(&mut rt.stdout(), &out[..end]) {
            return;
        }
    }
    print(rt, programs::finish(sheet, table, &begun));
}

// Reads what there is of standard input, up to PART_SIZE bytes; 0 at its end.
fn read_some(rt: &HostRuntime, input: &mut [u8; PART_SIZE]) -> usize
    ensures { IsPrefixLen result input.new }
{
    streams::read_some(&mut rt.stdin(), input)
}

// Writes a line.
fn print(rt: &HostRuntime, line: Line) {
    streams::write_all(&mut rt.stdout(), line.as_str().as_bytes());
}
