//! Tests of the calls: each one once on files that it accepts, command lines, one call with little
//! space for its output, calls on a file and on words that are refused, and calls with job files.
use crate::{
    Lengths, ngc_adapt, ngc_certify, ngc_check, ngc_command, ngc_draw, ngc_explain, ngc_job,
    ngc_list, ngc_machine, ngc_pulses, ngc_report, ngc_show,
};
use std::alloc::{AllocError, Global};
use std::process::Abort;
use std::test::Fail;

const MACHINE: &[u8] = b"version = 1
step = 10000
ticks_per_second = 10000
max_rate = 400000
change = 1000
corner = 50000
turn = 1000000000
low = [0, 0, -100000000]
high = [300000000, 300000000, 0]
start = [0, 0, 0]
home28 = [0, 0, 0]
home30 = [0, 0, 0]
";

const NAMING: &[u8] = b"version = 3
dialect = \"linuxcnc\"
[axis.x]
motor = \"100 steps/mm\"
travel = \"0 mm to 300 mm\"
speed = \"2400 mm/min\"
acceleration = \"500 mm/s2\"
[axis.y]
motor = \"100 steps/mm\"
travel = \"0 mm to 300 mm\"
speed = \"2400 mm/min\"
acceleration = \"500 mm/s2\"
[axis.z]
motor = \"100 steps/mm\"
travel = \"-100 mm to 0 mm\"
speed = \"2400 mm/min\"
acceleration = \"500 mm/s2\"
";

const TOOLS: &[u8] = b"version = 1
[[tool]]
number = 1
length = 20000000
radius = 3000000
offset = 20000000
";

const STILL: &[u8] = b"M2\n";

// A text in UTF-16, of which the mark is read.
const WIDE: &[u8] = b"\xff\xfeM\0";

const NO_MOTIONS: &[u8] = b"ngc-certificate 1\nsetting off 0\nsetting on 0\nend\n";

// 100 steps a millimetre make a step of 0.01 mm, which is 10,000 nm.
const SETTINGS: &[u8] = b"$13=0
$22=1
$23=3
$27=1.000
$100=100.000
$101=100.000
$102=100.000
$110=500.000
$111=500.000
$112=300.000
$120=10.000
$121=10.000
$122=10.000
$130=200.000
$131=180.000
$132=45.000
";

/// The page's memory for one call.
#[derive(Drop)]
struct Space {
    output: Vec<u8>,
    errors: Vec<u8>,
    lengths: Lengths,
}

impl Space {
    fn new(alloc: Global, output: usize) -> Result<Space, AllocError> {
        Ok(Space {
            output: vec![in alloc; 0u8; output]?,
            errors: vec![in alloc; 0u8; 1000]?,
            lengths: Lengths {
                output: 0,
                errors: 0,
            },
        })
    }
}

const PROGRAM: &[u8] = b"G0 X0.1\nM2\n";

impl Space {
    fn report(&mut self, alloc: Global) -> u32 {
        let output = self.output.as_mut_slice();
        let errors = self.errors.as_mut_slice();
        let lengths = &mut self.lengths;
        ngc_report(
            alloc, PROGRAM, MACHINE, TOOLS, false, false, output, errors, lengths,
        )
    }

    fn draw(&mut self, alloc: Global) -> u32 {
        let output = self.output.as_mut_slice();
        let errors = self.errors.as_mut_slice();
        let lengths = &mut self.lengths;
        ngc_draw(
            alloc, PROGRAM, MACHINE, TOOLS, 1, false, output, errors, lengths,
        )
    }

    fn list(&mut self, alloc: Global) -> u32 {
        let output = self.output.as_mut_slice();
        let errors = self.errors.as_mut_slice();
        let lengths = &mut self.lengths;
        ngc_list(
            alloc, PROGRAM, MACHINE, TOOLS, false, output, errors, lengths,
        )
    }

    fn certify(&mut self, alloc: Global) -> u32 {
        let output = self.output.as_mut_slice();
        let errors = self.errors.as_mut_slice();
        let lengths = &mut self.lengths;
        ngc_certify(alloc, STILL, MACHINE, TOOLS, false, output, errors, lengths)
    }

    fn check(&mut self, alloc: Global) -> u32 {
        let output = self.output.as_mut_slice();
        let errors = self.errors.as_mut_slice();
        let lengths = &mut self.lengths;
        ngc_check(
            alloc, STILL, MACHINE, TOOLS, NO_MOTIONS, output, errors, lengths,
        )
    }

    fn pulses(&mut self, alloc: Global) -> u32 {
        let output = self.output.as_mut_slice();
        let errors = self.errors.as_mut_slice();
        let lengths = &mut self.lengths;
        ngc_pulses(
            alloc, STILL, MACHINE, TOOLS, NO_MOTIONS, false, output, errors, lengths,
        )
    }

    fn show(&mut self, alloc: Global) -> u32 {
        let output = self.output.as_mut_slice();
        let errors = self.errors.as_mut_slice();
        let lengths = &mut self.lengths;
        ngc_show(alloc, MACHINE, TOOLS, output, errors, lengths)
    }

    fn adapt(&mut self, alloc: Global) -> u32 {
        let output = self.output.as_mut_slice();
        let errors = self.errors.as_mut_slice();
        let lengths = &mut self.lengths;
        let program: &[u8] = b"G0 X1\nM2\n";
        ngc_adapt(
            alloc, program, MACHINE, TOOLS, 0, false, output, errors, lengths,
        )
    }

    fn machine(&mut self, alloc: Global) -> u32 {
        let output = self.output.as_mut_slice();
        let errors = self.errors.as_mut_slice();
        let lengths = &mut self.lengths;
        ngc_machine(alloc, SETTINGS, output, errors, lengths)
    }

    fn command(&mut self, alloc: Global, words: &[u8]) -> u32 {
        let output = self.output.as_mut_slice();
        let errors = self.errors.as_mut_slice();
        let lengths = &mut self.lengths;
        ngc_command(
            alloc, words, PROGRAM, MACHINE, TOOLS, NO_MOTIONS, output, errors, lengths,
        )
    }

    // Checks a certificate with one of the files in UTF-16: that with this number, if there is one.
    fn check_wide(&mut self, alloc: Global, number: usize) -> u32 {
        let program = if number == 0 { WIDE } else { STILL };
        let machine = if number == 1 { WIDE } else { MACHINE };
        let tools = if number == 2 { WIDE } else { TOOLS };
        let certificate = if number == 3 { WIDE } else { NO_MOTIONS };
        let output = self.output.as_mut_slice();
        let errors = self.errors.as_mut_slice();
        let lengths = &mut self.lengths;
        ngc_check(
            alloc,
            program,
            machine,
            tools,
            certificate,
            output,
            errors,
            lengths,
        )
    }

    // Checks a certificate with all files as an editor saves them.
    fn check_saved(&mut self, alloc: Global) -> Result<u32, AllocError> {
        let program = as_saved(alloc, STILL)?;
        let machine = as_saved(alloc, MACHINE)?;
        let tools = as_saved(alloc, TOOLS)?;
        let certificate = as_saved(alloc, NO_MOTIONS)?;
        let output = self.output.as_mut_slice();
        let errors = self.errors.as_mut_slice();
        let lengths = &mut self.lengths;
        Ok(ngc_check(
            alloc,
            program.as_slice(),
            machine.as_slice(),
            tools.as_slice(),
            certificate.as_slice(),
            output,
            errors,
            lengths,
        ))
    }

    fn job(&mut self, alloc: Global, words: &[u8], job: &[u8]) -> u32 {
        let output = self.output.as_mut_slice();
        let errors = self.errors.as_mut_slice();
        let lengths = &mut self.lengths;
        ngc_job(
            alloc,
            words,
            b"plate/ngc.toml",
            job,
            output,
            errors,
            lengths,
        )
    }

    // Lists a program of LinuxCNC, on a machine file that names this control.
    fn list_by_key(&mut self, alloc: Global, words: &[u8]) -> u32 {
        let output = self.output.as_mut_slice();
        let errors = self.errors.as_mut_slice();
        let lengths = &mut self.lengths;
        ngc_command(
            alloc,
            words,
            b"#<x> = 1\nG21 G0 X#<x>\nM2\n",
            NAMING,
            TOOLS,
            b"",
            output,
            errors,
            lengths,
        )
    }

    fn explain(&mut self, alloc: Global) -> u32 {
        let output = self.output.as_mut_slice();
        let errors = self.errors.as_mut_slice();
        let lengths = &mut self.lengths;
        ngc_explain(alloc, 113, output, errors, lengths)
    }
}

/// A text with a byte order mark at its beginning, and a carriage return before each line feed.
fn as_saved(alloc: Global, text: &[u8]) -> Result<Vec<u8>, AllocError> {
    let mut saved = Vec::new(alloc);
    saved.extend_from_slice(b"\xef\xbb\xbf")?;
    for byte in text {
        if *byte == b'\n' {
            saved.push(b'\r')?;
        }
        saved.push(*byte)?;
    }
    Ok(saved)
}

/// A call on small files.
#[derive(Clone, Copy, Debug)]
enum Call {
    Report,
    Draw,
    List,
    Certify,
    Check,
    Pulses,
    Show,
    Adapt,
    Machine,
    Explain,
    Command(&'static [u8]),
}

impl Call {
    fn make(self, alloc: Global, space: &mut Space) -> u32 {
        match self {
            Call::Report => space.report(alloc),
            Call::Draw => space.draw(alloc),
            Call::List => space.list(alloc),
            Call::Certify => space.certify(alloc),
            Call::Check => space.check(alloc),
            Call::Pulses => space.pulses(alloc),
            Call::Show => space.show(alloc),
            Call::Adapt => space.adapt(alloc),
            Call::Machine => space.machine(alloc),
            Call::Explain => space.explain(alloc),
            Call::Command(words) => space.command(alloc, words),
        }
    }
}

fn has(text: &[u8], part: &[u8]) -> bool {
    for at in 0..text.len() {
        if text[at..].starts_with(part) {
            return true;
        }
    }
    false
}

/// A call, and a part of its output, which is the whole output where `is_whole` is set.
#[derive(Clone, Copy, Debug)]
struct Row {
    call: Call,
    part: &'static [u8],
    is_whole: bool,
}

const ROWS: &[Row] = &[
    Row {
        call: Call::Report,
        part: b"The program fits",
        is_whole: false,
    },
    Row {
        call: Call::Draw,
        part: b"<svg",
        is_whole: false,
    },
    Row {
        call: Call::List,
        part: b"0 1 traverse 100000 0 0 grid 10 0 0\n1 2 end\n",
        is_whole: true,
    },
    Row {
        call: Call::Certify,
        part: NO_MOTIONS,
        is_whole: true,
    },
    Row {
        call: Call::Check,
        part: b"accepted\n",
        is_whole: true,
    },
    Row {
        call: Call::Pulses,
        part: b"$enddefinitions $end",
        is_whole: false,
    },
    Row {
        call: Call::Show,
        part: b"0.01 mm",
        is_whole: false,
    },
    Row {
        call: Call::Adapt,
        part: b"G0 X1\nM2\n",
        is_whole: true,
    },
    Row {
        call: Call::Machine,
        part: b"motor = \"100 steps/mm\"",
        is_whole: false,
    },
    Row {
        call: Call::Explain,
        part: b"113",
        is_whole: false,
    },
    Row {
        call: Call::Command(
            b"report\n--machine=machine\n--tools=tools\n--program=program\n--margin=2",
        ),
        part: b"Margin: each fixture is 2 mm larger on every side",
        is_whole: false,
    },
    // The origin is at 1 mm, so X 0.1 is at 1.1 mm.
    Row {
        call: Call::Command(b"list\n--machine=machine\n--program=program\n--origin=54=1,0,0\n"),
        part: b"0 1 traverse 1100000 0 0 grid 110 0 0\n1 2 end\n",
        is_whole: true,
    },
    Row {
        call: Call::Command(b"version"),
        part: b"ngc ",
        is_whole: false,
    },
];

/// Words that are refused, and a part of the message.
const REFUSED: &[(&[u8], &[u8])] = &[
    (
        b"report\n--machine=machine\n--tools=tools\n--margin=two",
        b"invalid value 'two' for '--margin <MM>'",
    ),
    (
        b"list\n--origin=54=0,0,0\n--origin=54=1,1,1",
        b"invalid value '54=1,1,1' for '--origin <PLACE>'",
    ),
    (
        b"report\n--machine=machine\n--tools=tools\n--cuts=0",
        b"--cuts",
    ),
    (b"nothing", b"nothing"),
    (b"list\n\xff", b"UTF-8"),
];

fn is_answered(row: &Row, status: u32, space: &Space) -> bool {
    let length = space.lengths.output;
    if status != 0 || length > space.output.len() {
        return false;
    }
    let output = &space.output.as_slice()[..length];
    if row.is_whole {
        output == row.part
    } else {
        has(output, row.part)
    }
}

#[test]
fn each_call_hands_over_its_output(rt: HostRuntime) -> Result<(), Fail> {
    for row in ROWS {
        let mut space = Space::new(rt.alloc(), 20_000)?;
        let status = row.call.make(rt.alloc(), &mut space);
        let answered = is_answered(row, status, &space);
        assert!(&rt; answered, "at {row:?}");
    }
    Ok(())
}

// Ten bytes of the 44 that a listing has.
#[test]
fn a_text_is_cut_where_the_space_ends(rt: HostRuntime) -> Result<(), Fail> {
    let mut space = Space::new(rt.alloc(), 10)?;
    let status = Call::List.make(rt.alloc(), &mut space);
    let cut = status == 0
        && space.lengths.output == 44
        && space.output.as_slice() == b"0 1 traver".as_slice();
    assert!(&rt; cut);
    Ok(())
}

#[test]
fn a_refused_file_has_its_fault_among_the_errors(rt: HostRuntime) -> Result<(), Fail> {
    let mut space = Space::new(rt.alloc(), 10)?;
    let output = space.output.as_mut_slice();
    let errors = space.errors.as_mut_slice();
    let lengths = &mut space.lengths;
    let status = ngc_show(rt.alloc(), b"step = 1", b"", output, errors, lengths);
    let refused = status == 3 && has(space.errors.as_slice(), b"fault 269");
    assert!(&rt; refused);
    Ok(())
}

#[test]
fn refused_words_have_a_message_among_the_errors(rt: HostRuntime) -> Result<(), Fail> {
    for (words, part) in REFUSED {
        let mut space = Space::new(rt.alloc(), 10)?;
        let status = space.command(rt.alloc(), words);
        let refused = status == 2
            && space.lengths.output == 0
            && has(space.errors.as_slice(), part);
        assert!(&rt; refused, "at {words:?}");
    }
    Ok(())
}

#[test]
fn files_are_read_as_editors_save_them(rt: HostRuntime) -> Result<(), Fail> {
    let mut space = Space::new(rt.alloc(), 10)?;
    let status = space.check_saved(rt.alloc())?;
    let accepted = status == 0
        && space.lengths.errors == 0
        && space.output.as_slice().starts_with(b"accepted\n");
    assert!(&rt; accepted);
    Ok(())
}

// The faults are 112, 269, 269 and 301. The line after each says how to save the file.
#[test]
fn each_file_in_utf_16_is_refused_with_a_line_about_it(rt: HostRuntime) -> Result<(), Fail> {
    for number in 0..4 {
        let mut space = Space::new(rt.alloc(), 10)?;
        let status = space.check_wide(rt.alloc(), number);
        let refused = status >= 3
            && space.lengths.output == 0
            && has(space.errors.as_slice(), b"UTF-16: save it as UTF-8\n");
        assert!(&rt; refused, "at {number}");
    }
    Ok(())
}

/// The words of a call and a job file with the name plate/ngc.toml; the status, the output and a part of the errors.
type JobRow = (
    &'static [u8],
    &'static [u8],
    u32,
    &'static [u8],
    &'static [u8],
);

const JOBS: &[JobRow] = &[
    // The file lies beside the program. The margin of the words wins.
    (
        b"report\n--program=plate/part.nc\n--margin=2",
        b"machine = \"../mill.toml\"\nmargin = \"1 mm\"\n",
        0,
        b"report\n--program=plate/part.nc\n--margin=2\n--machine=plate/../mill.toml\n",
        b"ngc: plate/ngc.toml adds --machine=plate/../mill.toml\n",
    ),
    (
        b"list\n--job=plate/ngc.toml",
        b"dialect = \"mach3\"\nmargin = \"1 mm\"\n",
        0,
        b"list\n--dialect=mach3\n",
        b"ngc: plate/ngc.toml adds --dialect=mach3\n",
    ),
    // Another file is named, or none.
    (
        b"report\n--job=other.toml",
        b"margin = \"1 mm\"\n",
        0,
        b"report\n",
        b"",
    ),
    (
        b"report\n--program=part.nc",
        b"margin = \"1 mm\"\n",
        0,
        b"report\n--program=part.nc\n",
        b"",
    ),
    (
        b"report\n--job=plate/ngc.toml",
        b"x = [",
        3,
        b"",
        b"ngc: fault 269 job\n",
    ),
    (b"report\n--job", b"", 2, b"", b"--job <FILE>"),
    (
        b"report\n--job=plate/ngc.toml",
        b"machine = \"a\\nb.toml\"\n",
        3,
        b"",
        b"ngc: fault 269 job\n",
    ),
    // A carriage return before a line feed ends the line, and one within a word breaks it.
    (b"report\r\n--all", b"", 0, b"report\n--all\n", b""),
    (
        b"report\n--program=a\rb",
        b"",
        2,
        b"",
        b"error: a word of the call has a line break\n",
    ),
    (b"report\n\xff", b"", 2, b"", b"UTF-8"),
];

#[test]
fn a_job_file_adds_words(rt: HostRuntime) -> Result<(), Fail> {
    for row in JOBS {
        let (words, job, wanted, text, errors) = *row;
        let mut space = Space::new(rt.alloc(), 1000)?;
        let status = space.job(rt.alloc(), words, job);
        let same = status == wanted
            && space.lengths.output == text.len()
            && space.output.as_slice().starts_with(text)
            && has(space.errors.as_slice(), errors);
        assert!(&rt; same, "at {words:?}");
    }
    Ok(())
}

// In our own language a name in angle brackets is refused.
#[test]
fn the_key_of_the_machine_file_is_followed(rt: HostRuntime) -> Result<(), Fail> {
    let words = b"list\n--program=program\n--machine=machine\n--tools=tools";
    let own = b"list\n--program=program\n--machine=machine\n--tools=tools\n--dialect=ngc";
    let mut space = Space::new(rt.alloc(), 1000)?;
    let followed = space.list_by_key(rt.alloc(), words) == 0;
    let replaced = space.list_by_key(rt.alloc(), own) == 3;
    assert!(&rt; followed && replaced);
    Ok(())
}
