//! The files that a command writes.
use ngc_output_file::Outputs;
use ngc_text::{DeviceFault, Sink, WriteFault};
use std::fs::{self, File, OpenOptions};
use std::io::{self, Write};
use std::os::unix::fs::MetadataExt;

/// A file that is being written: beside the one whose name it will get, or, where that name belongs to a device, on
/// the device itself.
#[derive(Drop)]
pub struct HostDraft {
    file: File,
    /// The name of the file beside it.
    beside: Option<String>,
    failures: u64,
}

impl Sink for HostDraft {
    ghost use Rattle.std.specs.Prelude.{None};

    ghost written = { λ _. None };

    ghost failures = { λ d. d.failures };

    fn push(&mut self, buf: &[u8]) -> Result<usize, DeviceFault> {
        match self.file.write(buf) {
            Ok(count) if count > 0 || buf.is_empty() => Ok(count),
            _ => {
                self.failures = self.failures.saturating_add(1);
                Err(DeviceFault)
            }
        }
    }
}

/// The files that a command may write on this computer.
#[derive(Drop)]
pub struct HostOutputs<'a> {
    rt: &'a HostRuntime,
}

impl<'a> HostOutputs<'a> {
    /// Returns the files of this computer.
    pub fn new(rt: &'a HostRuntime) -> HostOutputs<'a> {
        HostOutputs { rt }
    }

    // Begins a new file beside the named one. A file that is there isn't touched.
    fn begin_beside(&self, name: &str) -> io::Result<HostDraft> {
        for number in 0..100 {
            let beside = match number {
                0 => format!(in self.rt.alloc(); "{name}.part")?,
                _ => format!(in self.rt.alloc(); "{name}.{number}.part")?,
            };
            match OpenOptions::new()
                .write(true)
                .create_new(true)
                .open(self.rt, beside.as_str())
            {
                Ok(file) => return Ok(HostDraft {
                    file,
                    beside: Some(beside),
                    failures: 0,
                }),
                Err(fault) if fault.kind() == io::ErrorKind::AlreadyExists => {}
                Err(fault) => return Err(fault),
            }
        }
        Err(io::Error::from(io::ErrorKind::AlreadyExists))
    }

    fn begin_draft(&self, name: &str) -> io::Result<HostDraft> {
        match fs::metadata(self.rt, name) {
            Ok(found) if found.is_dir() => Err(io::Error::from(io::ErrorKind::IsADirectory)),
            Ok(found) if found.is_file() => self.begin_beside(name),
            Ok(_) => Ok(HostDraft {
                file: OpenOptions::new().write(true).open(self.rt, name)?,
                beside: None,
                failures: 0,
            }),
            Err(fault) if fault.kind() == io::ErrorKind::NotFound => self.begin_beside(name),
            Err(fault) => Err(fault),
        }
    }

    fn is_same_file(&self, name: &str, other: &str) -> io::Result<bool> {
        let (one, other) = (fs::metadata(self.rt, name)?, fs::metadata(self.rt, other)?);
        Ok(one.dev() == other.dev() && one.ino() == other.ino())
    }

    fn rename(&self, draft: HostDraft, name: &str) -> io::Result<()> {
        let HostDraft { file, beside, .. } = draft;
        let Some(beside) = beside else {
            return Ok(());
        };
        let stored = file.sync_all();
        drop(file);
        let renamed = match stored {
            Ok(()) => fs::rename(self.rt, beside.as_str(), name),
            Err(fault) => Err(fault),
        };
        if renamed.is_err() {
            let _ = fs::remove_file(self.rt, beside.as_str());
        }
        renamed
    }
}

impl Outputs for HostOutputs<'_> {
    ghost use Rattle.std.specs.Prelude.{None};

    type Draft = HostDraft;

    ghost bytes = { λ _ _. None };

    // Of files that are there, Linux's numbers tell. Windows' are compared too.
    fn is_same(&mut self, name: &str, other: &str) -> bool {
        name == other || self.is_same_file(name, other).unwrap_or(false)
    }

    fn begin(&mut self, name: &str) -> Result<HostDraft, WriteFault> {
        self.begin_draft(name).map_err(|_| WriteFault)
    }

    fn finish(&mut self, draft: HostDraft, name: &str) -> Result<(), WriteFault> {
        self.rename(draft, name).map_err(|_| WriteFault)
    }

    fn discard(&mut self, draft: HostDraft) {
        let HostDraft { file, beside, .. } = draft;
        drop(file);
        if let Some(beside) = beside {
            let _ = fs::remove_file(self.rt, beside.as_str());
        }
    }
}
