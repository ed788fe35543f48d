use ngc_output_file::Outputs;
use ngc_test_devices::FailingSink;
use ngc_text::WriteFault;
use std::alloc::Global;

/// The files that a row writes. Names that end with `/` are folders.
#[derive(Drop)]
pub struct RowOutputs {
    alloc: Global,
    /// The number of bytes that a file takes before it fails.
    room: usize,
    /// The written files: a line with the name of each, and what it has.
    pub written: Vec<u8>,
}

impl RowOutputs {
    /// Returns files with this room, of which none is written.
    pub fn new(alloc: Global, room: usize) -> RowOutputs {
        RowOutputs {
            alloc,
            room,
            written: Vec::new(alloc),
        }
    }
}

impl Outputs for RowOutputs {
    ghost use Rattle.std.specs.Prelude.{None};

    type Draft = FailingSink;

    ghost bytes = { λ _ _. None };

    fn is_same(&mut self, name: &str, other: &str) -> bool {
        name == other || name.strip_prefix("./") == Some(other)
    }

    fn begin(&mut self, name: &str) -> Result<FailingSink, WriteFault> {
        if name.ends_with('/') {
            return Err(WriteFault);
        }
        let most = if self.room == usize::MAX {
            self.room
        } else {
            1
        };
        Ok(FailingSink::new(self.alloc, self.room, most))
    }

    fn finish(&mut self, draft: FailingSink, name: &str) -> Result<(), WriteFault> {
        let parts = [name.as_bytes(), b":\n", draft.taken.as_slice()];
        for part in parts {
            if self.written.extend_from_slice(part).is_err() {
                return Err(WriteFault);
            }
        }
        Ok(())
    }

    fn discard(&mut self, _draft: FailingSink) {}
}
