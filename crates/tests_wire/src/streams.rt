//! A reader and a writer that do as a script says.
ghost use Rattle.std.specs.Prelude.{None};

use st_service::{Failed, Sink, Source};

/// What a writer takes.
#[derive(Clone, Copy)]
pub struct Room {
    /// How many bytes it takes.
    pub bytes: usize,
    /// How many of them per call.
    pub per_call: usize,
    /// Whether it then takes none, in place of failing.
    pub is_stuck: bool,
}

/// A writer that takes all bytes at once.
pub const AMPLE: Room = Room {
    bytes: usize::MAX,
    per_call: usize::MAX,
    is_stuck: false,
};

/// What a connection reads, and what it may write.
#[derive(Clone, Copy)]
pub struct Script<'t> {
    pub input: &'t [u8],
    /// How many bytes a read gives at most.
    pub size: usize,
    /// Where a read fails.
    pub fails_at: usize,
    /// Whether the input begins anew where it ends.
    pub is_endless: bool,
    pub room: Room,
    /// What a second connection reads.
    pub again: &'t [u8],
}

impl<'t> Script<'t> {
    /// An input that comes whole, to a writer that takes all.
    pub fn of(input: &'t [u8]) -> Self {
        Script {
            input,
            size: usize::MAX,
            fails_at: usize::MAX,
            is_endless: false,
            room: AMPLE,
            again: b"",
        }
    }
}

/// A reader of a script.
#[derive(Drop)]
pub struct Scripted<'t> {
    pub script: Script<'t>,
    pub place: usize,
    pub reads: u64,
    pub ended: bool,
    pub failed: bool,
}

impl Scripted<'_> {
    // The place behind so many further bytes.
    fn place_behind(&self, count: usize) -> usize {
        let place = self.place.saturating_add(count);
        if self.script.is_endless && place >= self.script.input.len() {
            0
        } else {
            place
        }
    }
}

impl Source for Scripted<'_> {
    ghost left = { λ _. None };

    ghost reads = { λ s. s.reads };

    ghost has_ended = { λ s. s.ended };

    ghost has_failed = { λ s. s.failed };

    fn read(&mut self, buffer: &mut [u8]) -> Result<usize, Failed> {
        self.reads = self.reads.saturating_add(1);
        self.ended = false;
        if self.place == self.script.fails_at {
            self.failed = true;
            return Err(Failed);
        }
        let start = self.place.min(self.script.input.len());
        let rest = &self.script.input[start..];
        let count = self.script.size.min(rest.len()).min(buffer.len());
        buffer[..count].copy_from_slice(&rest[..count]);
        self.place = self.place_behind(count);
        self.ended = count == 0 && !buffer.is_empty();
        Ok(count)
    }
}

/// A writer with so much room.
#[derive(Drop)]
pub struct Narrow {
    pub taken: Vec<u8>,
    pub room: Room,
    pub failed: bool,
}

impl Sink for Narrow {
    ghost held = { λ _. None };

    ghost has_failed = { λ s. s.failed };

    fn write(&mut self, bytes: &[u8]) -> Result<usize, Failed> {
        let left = self.room.bytes.saturating_sub(self.taken.len());
        let count = bytes.len().min(left).min(self.room.per_call);
        if count == 0 || self.taken.extend_from_slice(&bytes[..count]).is_err() {
            self.failed = true;
            return if self.room.is_stuck {
                Ok(0)
            } else {
                Err(Failed)
            };
        }
        Ok(count)
    }
}
