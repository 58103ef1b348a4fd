// The places of an accepted file, taken out of its bytes.
ghost use Rattle.std.specs.Prelude.{◌≡◌, ◌<◌, get_or, IfOk, IfErr};
ghost use Rattle.place.specs.Places.{blank_place};
ghost use Rattle.atlas_file.specs.Steps.{most_places};
ghost use Rattle.atlas_file.specs.Reading.{read_reply, places_read, refused_file};
ghost use Rattle.atlas.specs.Tables.{AcceptedFile};

use atlas_file::{FileRefusal, MOST_PLACES};
use place::Place;

// The places of an accepted file: its bytes, where its first place's record starts, and how many there are.
#[derive(Clone, Copy)]
pub struct Places<'a> {
    pub bytes: &'a [u8],
    pub first: usize,
    pub count: usize,
    pub ghost accepted: { AcceptedFile bytes.now most_places first },
    pub ghost counted: { count ≡ (read_reply bytes.now most_places).count },
}

impl<'a> Places<'a> {
    // The places of a file, which is read through; or its refusal.
    pub fn read(bytes: &'a [u8]) -> Result<Places<'a>, FileRefusal>
        ensures accepted { IfOk result (λ places. places.bytes ≡ bytes.entry) }
        ensures refused { IfErr result (λ why. refused_file why.refusal why.offset ≡ read_reply bytes.now most_places) }
    {
        let atlas = atlas_file::read_through(bytes, MOST_PLACES)?;
        Ok(Places {
            bytes,
            first: records::sheet_record_length(atlas.sheet),
            count: atlas.count,
        })
    }

    // The place at a position, counted from 0; not offered to callers.
    pub fn place_unchecked(self, position: usize) -> Place
        requires { position < self.count }
        ensures { result ≡ get_or (places_read self.entry.bytes.now most_places) position blank_place }
    {
        crate::place_of_unchecked(self.bytes, self.first, position)
    }
}
