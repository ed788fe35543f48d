use crate::directive::{Beginning, Directive, Role};
use crate::row::{Outcome, Row};
use crate::text::{Spelling, Text};
use std::alloc::{AllocError, Global};
use std::io;

/// Reads files of rows line by line, and runs each row when the next one begins.
#[derive(Drop)]
pub struct Reader {
    /// The current file, and the current line in it.
    name: String,
    line: u32,
    pub rows: u32,
    /// The number of rows with a different result, and of lines that can't be read.
    pub otherwise: u32,
    shared: Vec<Text>,
    /// The number of texts in the first file: all files share them.
    common: usize,
    row: Option<Row>,
    /// The text to which the lines belong.
    text: Option<Text>,
}

const LINES: Spelling = Spelling::Lines(1);

impl Reader {
    /// Returns a reader that has read nothing.
    pub fn new(alloc: Global) -> Reader {
        Reader {
            name: String::new(alloc),
            line: 0,
            rows: 0,
            otherwise: 0,
            shared: Vec::new(alloc),
            common: 0,
            row: None,
            text: None,
        }
    }

    /// Begins a file. It drops the texts of earlier files, except those of the first one.
    pub fn open(&mut self, alloc: Global, name: &str) -> Result<(), AllocError> {
        if self.common == 0 {
            self.common = self.shared.len();
        }
        self.shared.truncate(self.common);
        self.name = name.to_string(alloc)?;
        self.line = 0;
        self.rows = 0;
        self.otherwise = 0;
        Ok(())
    }

    /// Reads the next line of the file.
    pub fn take(&mut self, rt: &HostRuntime, line: &str) -> io::Result<()> {
        self.line = self.line.saturating_add(1);
        let is_read = match line.strip_prefix('@') {
            Some(rest) => self.follow(rt, rest)?,
            None => self.take_text(rt.alloc(), line)?,
        };
        if !is_read {
            self.otherwise = self.otherwise.saturating_add(1);
            println!(rt;
                "{}:{}: this line can't be read: {line}",
                self.name, self.line
            )?;
        }
        Ok(())
    }

    // Reads a line of a text, or one between rows.
    fn take_text(&mut self, alloc: Global, line: &str) -> Result<bool, AllocError> {
        match &mut self.text {
            Some(text) => text.take(alloc, line),
            None => Ok(line.is_empty() || line.starts_with('#')),
        }
    }

    // Executes a directive, and returns whether it is allowed there.
    fn follow(&mut self, rt: &HostRuntime, line: &str) -> io::Result<bool> {
        let alloc = rt.alloc();
        let Some(directive) = Directive::read(line) else {
            return Ok(false);
        };
        match directive {
            Directive::Lines(times) => return Ok(self.go_on(alloc, Spelling::Lines(times))?),
            Directive::Bytes(times) => return Ok(self.go_on(alloc, Spelling::Bytes(times))?),
            _ => self.end_text(alloc)?,
        }
        match directive {
            Directive::Words(words) => {
                self.finish(rt)?;
                self.row = Some(Row::new(alloc, self.line, words)?);
                Ok(true)
            }
            Directive::Text(beginning) => {
                if beginning.role == Role::Shared {
                    self.finish(rt)?;
                }
                Ok(self.begin(alloc, beginning)?)
            }
            Directive::End => Ok(true),
            _ => match &mut self.row {
                Some(row) => Ok(follow_in_row(alloc, row, directive)?),
                None => Ok(false),
            },
        }
    }

    // Begins a text, and returns whether it is allowed there.
    fn begin(&mut self, alloc: Global, beginning: Beginning<'_>) -> Result<bool, AllocError> {
        let role = beginning.role;
        let Some(bytes) = base_of(self.shared.as_slice(), beginning.base) else {
            return Ok(false);
        };
        if role != Role::Shared && self.row.is_none() {
            return Ok(false);
        }
        let spelling = if beginning.has_changes {
            Spelling::Changes
        } else {
            LINES
        };
        self.text = Some(Text::new(alloc, role, beginning.name, bytes, spelling)?);
        Ok(true)
    }

    // Changes how the text's next lines are read, and returns whether there is a text.
    fn go_on(&mut self, alloc: Global, spelling: Spelling) -> Result<bool, AllocError> {
        match &mut self.text {
            Some(text) => {
                text.go_on(alloc, spelling)?;
                Ok(true)
            }
            None => Ok(false),
        }
    }

    // Stores the text in its row, or among the shared ones.
    fn end_text(&mut self, alloc: Global) -> Result<(), AllocError> {
        let Some(mut text) = self.text.take() else {
            return Ok(());
        };
        text.go_on(alloc, LINES)?;
        match &mut self.row {
            Some(row) if text.role != Role::Shared => row.texts.push(text)?,
            _ => self.shared.push(text)?,
        }
        Ok(())
    }

    /// Runs the row that has ended, if there is one.
    pub fn finish(&mut self, rt: &HostRuntime) -> io::Result<()> {
        self.end_text(rt.alloc())?;
        let Some(row) = self.row.take() else {
            return Ok(());
        };
        self.rows = self.rows.saturating_add(1);
        let found = row.outcome(rt.alloc(), self.shared.as_slice())?;
        let is_same = found.status == row.status
            && row.is_wanted("output", found.output.as_slice())
            && row.is_wanted("errors", found.errors.as_slice())
            && row.is_document(rt.alloc(), found.output.as_slice());
        if !is_same {
            self.otherwise = self.otherwise.saturating_add(1);
            tell(rt, self.name.as_str(), &row, &found)?;
        }
        if let Some(name) = &row.kept {
            let bytes = found.output.as_slice();
            self.shared.push(Text::new(rt.alloc(), Role::Shared, name.as_str(), bytes, LINES)?)?;
        }
        Ok(())
    }
}

// Returns the text with which another one begins, if rows share it.
fn base_of<'a>(shared: &'a [Text], base: Option<&str>) -> Option<&'a [u8]> {
    let Some(name) = base else {
        return Some(b"");
    };
    let found = shared
        .iter()
        .filter(|text| text.is(Role::Shared, name))
        .last()?;
    Some(found.bytes.as_slice())
}

// Executes a directive about a row, and returns whether it is one of these.
fn follow_in_row(
    alloc: Global,
    row: &mut Row,
    directive: Directive<'_>,
) -> Result<bool, AllocError> {
    match directive {
        Directive::Status(status) => row.status = status,
        Directive::Keep(name) => row.kept = Some(name.to_string(alloc)?),
        Directive::Json => row.is_json = true,
        Directive::Fails(name, place) => row.fail(alloc, name, place)?,
        Directive::Once(name) => row.open_once(alloc, name)?,
        _ => return Ok(false),
    }
    Ok(true)
}

// Prints a row whose result is not the wanted one.
fn tell(rt: &HostRuntime, name: &str, row: &Row, found: &Outcome) -> io::Result<()> {
    println!(rt; "{name}:{}: ngc {}", row.line, row.words)?;
    println!(rt; "  status {}, and {} is wanted", found.status, row.status)?;
    print_failure(rt, "its output is", found.output.as_slice())?;
    print_failure(rt, "its errors are", found.errors.as_slice())?;
    for text in row.texts.iter() {
        match text.role {
            Role::Is => print_failure(rt, "wanted is", text.bytes.as_slice())?,
            Role::Has => print_failure(rt, "wanted are parts", text.bytes.as_slice())?,
            Role::Lacks => print_failure(rt, "not wanted are", text.bytes.as_slice())?,
            Role::File | Role::Shared => {}
        }
    }
    Ok(())
}

fn print_failure(rt: &HostRuntime, what: &str, bytes: &[u8]) -> io::Result<()> {
    match std::str::from_utf8(bytes) {
        Ok(text) => println!(rt; "  {what} {text:?}"),
        Err(_) => println!(rt; "  {what} {bytes:?}"),
    }
}
