use crate::directive::Role;
use crate::row::Row;
use crate::text::Text;
use ngc_line_reader::ReadFault;
use ngc_simulator::Files;
use ngc_test_devices::SlowSource;
use std::alloc::Global;

/// The files of a row and those that it shares. Some of them fail, or can be opened only once.
#[derive(Drop)]
pub struct RowFiles<'a> {
    row: &'a Row,
    shared: &'a [Text],
    opened: Vec<&'a str>,
    failures: u64,
}

impl<'a> RowFiles<'a> {
    /// Returns the files that a row names, with those that rows share.
    pub fn new(alloc: Global, row: &'a Row, shared: &'a [Text]) -> RowFiles<'a> {
        RowFiles {
            row,
            shared,
            opened: Vec::new(alloc),
            failures: 0,
        }
    }

    // Returns the file with that name: the row's own takes precedence over one that rows share.
    fn file(&self, name: &str) -> Option<&'a Text> {
        let own = self.row.texts.iter();
        let shared = self.shared.iter();
        own.filter(|text| text.is(Role::File, name)).next().or_else(|| shared
            .filter(|text| text.is(Role::Shared, name))
            .last())
    }
}

// Returns whether a file may be opened, and notes that it was.
fn may_open<'a>(row: &Row, opened: &mut Vec<&'a str>, file: &'a Text) -> bool {
    let name = file.name.as_str();
    let is_opened = opened.iter().any(|it| **it == *name);
    !(is_opened && row.is_once(name)) && opened.push(name).is_ok()
}

impl<'a> Files for RowFiles<'a> {
    ghost use Rattle.std.specs.Prelude.{None};

    type R = SlowSource<'a>;

    ghost failures = { λ f. f.failures };

    ghost bytes = { λ _ _. None };

    fn source(&mut self, name: Option<&str>) -> Result<SlowSource<'a>, ReadFault> {
        let failing = self.row.failing(name.unwrap_or("input"));
        let file = self.file(name.unwrap_or("input"));
        match (name, file) {
            (_, Some(file)) if may_open(self.row, &mut self.opened, file) => {
                Ok(SlowSource::new(file.bytes.as_slice(), 4_096, failing))
            }
            (None, None) => Ok(SlowSource::new(b"", 4_096, failing)),
            _ => {
                self.failures = self.failures.saturating_add(1);
                Err(ReadFault::Device)
            }
        }
    }
}
