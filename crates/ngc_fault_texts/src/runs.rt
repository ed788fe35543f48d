//! Faults of events, of the run, and of input, output and the command line.

ghost use Rattle.std.specs.Prelude.{◌≡◌, map};
ghost use Rattle.ngc_fault_texts.specs.Numbers.{event_numbers, log_numbers, shell_numbers};

use crate::parts::Row;

// Returns the rows of "Events".
pub(crate) fn events() -> &'static [Row]
    ensures { map (λ row. row.number) result.now ≡ event_numbers }
{
    const ROWS: &[Row] = &[
        Row {
            number: 711,
            rule: "This line of the events file is no event, or has no line feed at its end: correct it.\n\
             Events are `load`, `tick N`, `hold`, `resume`, `start`, `override N`, `switch on` and\n\
             `switch off`.",
            example: "events `load`, `tick 0`",
            answer: "`ngc: fault 711 events line 2`",
            place: None,
            mend: "Look for a misspelt word, two spaces, or a leading zero. N is 1 to 1,000,000 for `tick` and 0 to\n\
             255 for `override`.",
        },
        Row {
            number: 712,
            rule: "The events file has more than 1,000,000 lines: write `tick N` for N lines `tick 1`.",
            example: "an events file of 1,000,001 lines `load`",
            answer: "`ngc: fault 712`",
            place: None,
            mend: "For example `tick 1000` for a thousand of them.",
        },
    ];
    ROWS
}

// Returns the rows of "In the log".
pub(crate) fn log() -> &'static [Row]
    ensures { map (λ row. row.number) result.now ≡ log_numbers }
{
    const ROWS: &[Row] = &[
        Row {
            number: 701,
            rule: "The override is too high: write at most 200 (our own).",
            example: "events `override 201`",
            answer: "`refused 701`",
            place: None,
            mend: "It is in percent. The override before it stays.",
        },
        Row {
            number: 702,
            rule: "This load is too early: write ticks before it, until a command is done.\n\
             At most `ring` commands may be loaded and not done, 16 where the machine file has no such key\n\
             (our own).",
            example: "no `ring`, events of seventeen lines `load`, and a program of seventeen commands",
            answer: "`refused 702`",
            place: None,
            mend: "Or write a greater `ring` into the machine file, up to 1,024 (version 2).",
        },
        Row {
            number: 703,
            rule: "No command is left to load: take this load out.\n\
             703 takes precedence over 702 (our own).",
            example: "events `load`, `load`, `load`",
            answer: "`refused 703`",
            place: None,
            mend: "A program has one command for each line of `ngc list`: two in the example.",
        },
    ];
    ROWS
}

// Returns the rows of "Input, output and the command line".
pub(crate) fn shell() -> &'static [Row]
    ensures { map (λ row. row.number) result.now ≡ shell_numbers }
{
    const ROWS: &[Row] = &[
        Row {
            number: 720,
            rule: "The command line is wrong: write it as `ngc --help` and the help of each command say (our own).\n\
             An option `--help` counts as 720 too.",
            example: "command `ngc list --prog plate.ngc`",
            answer: "a text on standard error that begins with `error: unexpected argument`; the number\n\
             isn't written",
            place: Some("2"),
            mend: "Correct the name of the option: `ngc list --program plate.ngc`.",
        },
        Row {
            number: 721,
            rule: "No fault has this number: write the one after the word `fault` in the message (our own).",
            example: "command `ngc explain 999`",
            answer: "`ngc: fault 721`",
            place: Some("3"),
            mend: "docs/FAULTS.md has all of them.",
        },
        Row {
            number: 722,
            rule: "`ngc` has no command of this name: `ngc help` lists them (our own).",
            example: "command `ngc help print`",
            answer: "`ngc: fault 722`",
            place: Some("3"),
            mend: "For example `ngc help list`.",
        },
        Row {
            number: 723,
            rule: "`ngc draw` has no view of this name: write `top`, `front`, `side` or `iso` (our own).",
            example: "command `ngc draw --view above --machine mill.toml --tools tools.toml`",
            answer: "`ngc: fault 723`",
            place: Some("3"),
            mend: "Without `--view` it is `top`.",
        },
        Row {
            number: 724,
            rule: "There is no control of this name: write `linuxcnc`, `grbl`, `mach3` or `fanuc` (our own).",
            example: "command `ngc adapt --from haas --program part.nc`",
            answer: "`ngc: fault 724`",
            place: Some("3"),
            mend: "`fanuc` is for Fanuc and Haas, `mach3` for Mach3 and Mach4, `grbl` for GRBL and its relatives,\n\
             `linuxcnc` for LinuxCNC and PathPilot.",
        },
        Row {
            number: 726,
            rule: "`ngc machine` needs `--grbl`, or all of `--steps-per-mm`, `--travel`, `--feed` and\n\
             `--acceleration`: write one or the other (our own).",
            example: "command `ngc machine --steps-per-mm 800`",
            answer: "`ngc: fault 726`",
            place: Some("3"),
            mend: "`--grbl` names a file with what GRBL prints for `$$`. None of the four is written beside it, and\n\
             no `--frame`.",
        },
        Row {
            number: 727,
            rule: "The command has no output of this name: write `log`, `times` or `samples` for `ngc run`\n\
             and `ngc live`, `vcd` or `samples` for `ngc pulses` (our own).",
            example: "command `ngc run --output vcd` with a machine file, a tool table and a certificate",
            answer: "`ngc: fault 727`",
            place: Some("3"),
            mend: "Without `--output` it is the first of them.",
        },
        Row {
            number: 728,
            rule: "`ngc place` has no coordinate system of this name: write `54` to `59`, `59.1`, `59.2` or `59.3`\n\
             (our own).",
            example: "command `ngc place --system G54` with a machine file and a tool table",
            answer: "`ngc: fault 728`",
            place: Some("3"),
            mend: "Without `--system` it is `54`, for G54.",
        },
        Row {
            number: 729,
            rule: "`ngc report --cells` needs a block of material: name one with `--stock`, or leave `--cells` out\n\
             (our own).",
            example: "command `ngc report --cells 1000000` with a machine file without `stock`",
            answer: "`ngc: fault 729`, after a sentence on standard output",
            place: Some("3"),
            mend: "The block may also be in the machine file or in the job file. With more cells the margin is\n\
             smaller for which traverses are tested.",
        },
        Row {
            number: 730,
            rule: "`ngc draw --map` needs a block of material: name one with `--stock`, or leave `--map` out\n\
             (our own). It is 730 too if the block, or the end of a motion, is more than 2 m from the\n\
             machine's zero.",
            example: "command `ngc draw --map` with a machine file without `stock`",
            answer: "`ngc: fault 730`",
            place: Some("3"),
            mend: "The block may also be in the machine file or in the job file. `ngc report` says if it is\n\
             too far.",
        },
        Row {
            number: 900,
            rule: "There isn't enough memory for the files and the commands: give `ngc` more (our own).",
            example: "command `ngc list` in a shell after `ulimit -v 8000`, with a program of 100,000 lines",
            answer: "`ngc: fault 900`",
            place: Some("1"),
            mend: "100,000 short lines need about 20 MB, lines of full length up to 180 MB, and 1,000,000 commands\n\
             about 95 MB.",
        },
        Row {
            number: 901,
            rule: "A file can't be opened or read: correct its name or its permissions (our own).\n\
             A machine file, tool table, job file, events file, dump of GRBL's settings, or program for\n\
             `ngc adapt` or with `--dialect` has at most 20,000,000 bytes.",
            example: "command `ngc list --program none.ngc`",
            answer: "`ngc: fault 901`",
            place: Some("1"),
            mend: "A second line names the file: with a job file always, without one for all commands but `list`,\n\
             `certify`, `check` and `run`. A folder can't be read. `-` is a name like any other: for\n\
             standard input leave `--program` out.",
        },
        Row {
            number: 902,
            rule: "The output can't be written: make space on the disk, or write to another file (our own).",
            example: "command `ngc list >/dev/full`",
            answer: "`ngc: fault 902`",
            place: Some("1"),
            mend: "What was written is a prefix of the output. Where a pipe was closed, as by `head`, the status\n\
             is the same, but no line is written. With `--out` the file is as it was. A second line says\n\
             if the file is one that the command reads, can't be made or can't get its name.",
        },
    ];
    ROWS
}
