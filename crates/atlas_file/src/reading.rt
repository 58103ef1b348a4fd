// Reading a file through, step by step.
ghost use Rattle.std.specs.Prelude.{◌≡◌};
ghost use Rattle.atlas_file.specs.Reading.{start_of, read_reply, file_reply_of};

use crate::{Found, State, step_unchecked};
use refusal::Refusal;
use sheet::Sheet;

// Before the first record, with room for so many places.
#[tactic(auto, unfolding(crate::specs::Reading::start_of))]
pub fn start(room: usize) -> State
    ensures { result ≡ start_of room }
{
    State {
        at: 0,
        sheet_read: false,
        sheet: sheet::blank(),
        count: 0,
        last_id: 0,
        room,
    }
}

// Why a file is refused, and the offset of the record's kind byte; of 3, that of the first byte past the end.
#[derive(Clone, Copy, Debug, PartialEq, Eq)]
pub struct FileRefusal {
    pub refusal: Refusal,
    pub offset: usize,
}

// A refusal that no record gives has offset 0.
impl From<Refusal> for FileRefusal {
    ghost from_gives = { λ refusal gives. gives ≡ record { «refusal» = refusal; «offset» = 0 } };

    fn from(refusal: Refusal) -> FileRefusal {
        FileRefusal { refusal, offset: 0 }
    }
}

// What an accepted file holds: how many places, and its sheet.
#[derive(Clone, Copy)]
pub struct Atlas {
    pub count: usize,
    pub sheet: Sheet,
}

// Reads a file through, to its end or to the first refusal, for a table with room for so many places. No place is stored.
pub fn read_through(bytes: &[u8], room: usize) -> Result<Atlas, FileRefusal>
    ensures { file_reply_of result ≡ read_reply bytes.now room }
{
    let mut state = start(room);
    // counts no index: each step leads to the next state
    loop {
        let advance = step_unchecked(bytes, state, state.sheet_read)?;
        if let Found::End { count } = advance.found {
            return Ok(Atlas {
                count,
                sheet: state.sheet,
            });
        }
        state = advance.next;
    }
}
