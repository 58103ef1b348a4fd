// The reader of document 01, 'The atlas file', as one value that carries the file's bytes and its position: a thin cover over atlas_file's step.

#![tactic(auto)]

ghost use Rattle.std.specs.Prelude.{◌≡◌};
ghost use Rattle.atlas_file.specs.Steps.{step_reply_of, step_reply};
ghost use Rattle.atlas_file.specs.Reading.{start_of, read_reply, file_reply_of};

use atlas_file::{Advance, Atlas, FileRefusal, Found, State};

// A reader that carries its file and where it stands in it.
#[derive(Clone, Copy)]
pub struct Reader<'a> {
    // The file.
    pub bytes: &'a [u8],
    // Where it stands: the position of the next record, the room in the caller's table, and what is read so far.
    pub state: State,
}

// A reader before the first record, for a table with room for so many places.
pub fn start<'a>(bytes: &'a [u8], room: usize) -> Reader<'a>
    ensures { (result.bytes ≡ bytes.entry) × (result.state ≡ start_of room) }
{
    Reader {
        bytes,
        state: atlas_file::start(room),
    }
}

impl<'a> Reader<'a> {
    // Reads the record at which the reader stands, which may be anywhere: what it is, and the state past it, or at the end the state as it was.
    pub fn step(self) -> Result<Advance, FileRefusal>
        ensures { step_reply_of self.entry.state result ≡ step_reply self.entry.bytes.now self.entry.state }
    {
        atlas_file::step(self.bytes, self.state)
    }

    // The same reader at another state, as where a step leads.
    pub fn moved(self, state: State) -> Reader<'a>
        ensures { (result.bytes ≡ self.entry.bytes) × (result.state ≡ state) }
    {
        Reader { state, ..self }
    }
}

// Reads a file through with a reader, to its end or to the first refusal: what atlas_file::read_through answers.
pub fn run(bytes: &[u8], room: usize) -> Result<Atlas, FileRefusal>
    ensures { file_reply_of result ≡ read_reply bytes.now room }
{
    let mut reader = start(bytes, room);
    // counts no index: each step leads to the next. A loop beside read_through's: document 01's reader is run by its own step.
    loop {
        let advance = reader.step()?;
        if let Found::End { count } = advance.found {
            return Ok(Atlas {
                count,
                sheet: advance.next.sheet,
            });
        }
        reader = reader.moved(advance.next);
    }
}
