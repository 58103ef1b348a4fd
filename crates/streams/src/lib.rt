// Reading and writing as the programs do it: as much as there is, and an error ends it.

#![tactic(auto)]

ghost use Rattle.std.specs.Prelude.{◌≡◌, ◌≤◌, ℕ, true, length, take};
ghost use Rattle.std.specs.Io.KnownBytes.{Appends, Consumes};

use std::io::{Read, Write};

// Reads until the buffer is full, the input ends or a read fails, and answers how many bytes it put at the buffer's start.
pub fn read_full<R: Read>(input: &mut R, buffer: &mut [u8]) -> usize
    ensures in_bounds { result ≤ length buffer.new }
    ensures bytes { Consumes (R.remaining input.old) (R.remaining input.new) (take result buffer.new) }
{
    let mut filled = 0;
    // no plainer: each read answers how many bytes it gave, and the next goes on behind them
    while filled < buffer.len() {
        match read_some(input, &mut buffer[filled..]) {
            0 => break,
            got => filled += got,
        }
    }
    filled
}

// Reads what there is, up to the buffer's length, to the buffer's start, and answers how many bytes; 0 at the input's end, and where a read fails.
// No Result: for the programs a read that fails is the input's end (`read_full` promises as much).
pub fn read_some<R: Read>(input: &mut R, buffer: &mut [u8]) -> usize
    ensures in_bounds { result ≤ length buffer.new }
    ensures bytes { Consumes (R.remaining input.old) (R.remaining input.new) (take result buffer.new) }
{
    input.read(buffer).unwrap_or(0)
}

// Writes all the bytes, and answers whether they could be written; where not, some of them may be. No Result: it could be asked for nothing more.
pub fn write_all<W: Write>(output: &mut W, bytes: &[u8]) -> bool
    ensures { result ≡ true → Appends (W.contents output.old) (W.contents output.new) bytes.now }
{
    output.write_all(bytes).is_ok()
}

// Prints a report of an input: as much of it as `file` has room for is read, and what `report` puts at the start of its buffer is written. Answers
// whether that could be written, as `write_all` does; not offered to callers.
pub fn print_report_unchecked<R: Read, W: Write, F: FnOnce(&[u8], &mut [u8; 65536]) -> usize>(
    input: &mut R,
    output: &mut W,
    file: &mut [u8],
    report: F,
) -> bool
    requires callable { F.IsAlwaysCallable report }
    requires within { (read : _) (text : _) (end : ℕ) (printed : _) → F.post report read text end printed → end ≤ length printed.now }
    ensures { (n : ℕ) × Consumes (R.remaining input.old) (R.remaining input.new) (take n file.new)
        × (result ≡ true → (read : _) × (text : _) × (end : ℕ) × (printed : _) × (read.now ≡ take n file.new)
        × F.post report read text end printed × Appends (W.contents output.old) (W.contents output.new) (take end printed.now)) }
{
    let length = read_full(input, file);
    let mut text = [0u8; 65536];
    let end = report(&file[..length], &mut text);
    write_all(output, &text[..end])
}
