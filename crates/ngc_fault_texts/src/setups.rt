//! Faults of the machine file, the tool table and the certificate.

ghost use Rattle.std.specs.Prelude.{◌≡◌, map};
ghost use Rattle.ngc_fault_texts.specs.Numbers.{setup_numbers, certificate_numbers};

use crate::parts::Row;

// Returns the rows of "Machine file and tool table".
pub(crate) fn setup() -> &'static [Row]
    ensures { map (λ row. row.number) result.now ≡ setup_numbers }
{
    const ROWS: &[Row] = &[
        Row {
            number: 261,
            rule: "The version of this machine file is unknown: write `version = 3`, or 2 or 1 for whole numbers.",
            example: "machine file `version = 4`",
            answer: "`ngc: fault 261 machine`",
            place: None,
            mend: "In version 3 each length, speed and acceleration is a text with its unit. Only version 2 has\n\
             `axis_rate`; `jump`, `ring`, `arc_feed`, `changer`, `margin`, `travel_margin` and `rapids` are\n\
             in versions 2 and 3.",
        },
        Row {
            number: 261,
            rule: "The version of this tool table is unknown: write `version = 3`, or 2 or 1 for whole numbers.",
            example: "tool table `version = 4`",
            answer: "`ngc: fault 261 tools`",
            place: None,
            mend: "In version 3 a tool has `diameter` and `length` with their units, in version 2 `bottom` and\n\
             `parts`, and in version 1 `length` and `radius`.",
        },
        Row {
            number: 262,
            rule: "`step` is out of its range: write 500 to 50,000, in nanometres.",
            example: "machine file `step = 499`",
            answer: "`ngc: fault 262 machine`",
            place: None,
            mend: "A step of 0.01 mm is `step = 10000`. In version 3 the `motor` of each axis says its step,\n\
             which is from 500 to 50,000 nm and needn't be a whole number of them.",
        },
        Row {
            number: 263,
            rule: "`ticks_per_second` is out of its range: write 1 to 1,000,000.",
            example: "machine file `ticks_per_second = 0`",
            answer: "`ngc: fault 263 machine`",
            place: None,
            mend: "`ngc machine` computes it from the figures of your machine.",
        },
        Row {
            number: 264,
            rule: "A number of the machine file is out of its range: `ngc show` says which key it is, and what to\n\
             write.\n\
             Rates are in millionths of a step a tick: `ngc machine` computes them for your machine.",
            example: "machine file `corner = 0`",
            answer: "`ngc: fault 264 machine`",
            place: None,
            mend: "`max_rate`, `axis_rate`, `change`, `corner`: 1 to 1,000,000. `jump`: 0 to 1,000,000. `turn`: 1\n\
             to 1,000,000,000,000. `ring`: 16 to 1,024. `arc_feed`: 0 to 2. `changer`: 0 or 1. In version 3\n\
             the `ticks` don't suit a `speed` or an `acceleration`: without that key `ngc` chooses them.",
        },
        Row {
            number: 265,
            rule: "The travel or the start point is wrong: `low` can't be above `high`, and `start` must be between\n\
             them, on a whole step.\n\
             `low` and `high` are at most 1,000,000,000 nm either way, and `travel_margin` is 0 to\n\
             100,000,000 nm.",
            example: "machine file `start = [5, 0, 0]`",
            answer: "`ngc: fault 265 machine`",
            place: None,
            mend: "Write `start` as a multiple of `step`: with `step = 10000` it can be 0 or 10000, and not 5. With\n\
             a travel margin `start` is at least that far from `low` and `high`. In version 3 the ends of\n\
             the travel are in `travel`, and at most 3,999 mm from zero.",
        },
        Row {
            number: 266,
            rule: "A home position or an origin is too far out: write at most 1,000,000,000 nm either way, and in\n\
             version 3 at most 4,000 mm.",
            example: "machine file `home28 = [1000000001, 0, 0]`",
            answer: "`ngc: fault 266 machine`",
            place: None,
            mend: "That is 1 m: a millimetre is 1,000,000 nm.",
        },
        Row {
            number: 267,
            rule: "A fixture or the material has no size on some axis, or is too far out: put its lower corner\n\
             into `low`, and the other into `high`.\n\
             Corners of fixtures are at most 4,000,000,000 nm either way, with the margin too; those of\n\
             the material are at most 1,000,000,000. `margin` is 0 to 100,000,000 nm.",
            example: "machine file `fixture = [{low = [0, 0, 0], high = [1, 1, 0]}]`",
            answer: "`ngc: fault 267 machine`",
            place: None,
            mend: "In the example Z has no size: with `high = [1, 1, 1]` it would have. A `name` has 1 to 40\n\
             printable ASCII characters. There are at most 256 fixtures. The material's `system` is 0 to 9.\n\
             In version 3 `from` and `to`, or `from` and `size`, are in place of `low` and `high`.",
        },
        Row {
            number: 268,
            rule: "A number of the tool table is out of its range, or a tool is there twice: `ngc show` says which\n\
             key it is.\n\
             `name`: 1 to 40 printable ASCII characters. One to four parts; at most 1,000 tools.",
            example: "tool table `version = 1`, `[[tool]]`, `number = 0`, `length = 0`, `radius = 0`,\n\
             `offset = 0`",
            answer: "`ngc: fault 268 tools`",
            place: None,
            mend: "`number`: 1 to 9,999, another one for each tool. `length`, `radius`: 0 to 1,000,000,000 nm.\n\
             `offset`: at most that either way. `bottom`: -1,000,000,000 to 0 nm. In version 3 lengths are\n\
             at most 1,000 mm, and those of the tool and its holder must add up.",
        },
        Row {
            number: 269,
            rule: "The machine file isn't TOML, or a key is missing, unknown or has a value of the wrong kind:\n\
             `ngc show` says which key it is.",
            example: "machine file `step = 0.01`",
            answer: "`ngc: fault 269 machine`",
            place: None,
            mend: "The key `version` says how the others are written. In version 3 a length has its unit, as in\n\
             `\"0.01 mm\"`. In versions 1 and 2 numbers are whole, three of them for a position, and lengths\n\
             in nanometres: `step = 10000` for 0.01 mm. `axis_rate` is only in version 2, `dialect` and the\n\
             table `stock` in versions 2 and 3.",
        },
        Row {
            number: 269,
            rule: "The tool table isn't TOML, or a key is missing, unknown or has a value of the wrong kind:\n\
             `ngc show` says which key it is.\n\
             Each tool has the keys of the table's version.",
            example: "tool table `version = 1`, `[[tool]]`, `number = 1`",
            answer: "`ngc: fault 269 tools`",
            place: None,
            mend: "Version 1: `number`, `length`, `radius`, `offset`. Version 2: `number`, `offset`, `bottom`,\n\
             `parts`, and where you like a `name`. Version 3: `number`, `diameter`, and `length` or\n\
             `stickout`; the others may be missing.",
        },
        Row {
            number: 269,
            rule: "The job file isn't TOML, or a key is unknown or has a value of the wrong kind: the message says\n\
             which key it is, and what to write.",
            example: "job file `margin = 1`",
            answer: "`ngc: fault 269 job`",
            place: None,
            mend: "Write `margin = \"1 mm\"`. A job file is `ngc.toml` beside the program, or the one that `--job`\n\
             names.",
        },
    ];
    ROWS
}

// Returns the rows of "Certificates".
pub(crate) fn certificates() -> &'static [Row]
    ensures { map (λ row. row.number) result.now ≡ certificate_numbers }
{
    const ROWS: &[Row] = &[
        Row {
            number: 301,
            rule: "The certificate is damaged or cut off: make it again with `ngc certify`.\n\
             A line isn't in the format, `end` is missing, or something follows it.",
            example: "`line 65536 0 0 0 03 0 0`",
            answer: "`ngc: fault 301 certificate line 4`",
            place: None,
            mend: "Look for a copy that was cut off. docs/FORMATS.md has the format.",
        },
        Row {
            number: 302,
            rule: "This file isn't a certificate, or is empty: make one with `ngc certify`, and name it with\n\
             `--certificate`.\n\
             Its first line is `ngc-certificate 1` or `ngc-certificate 2`.",
            example: "a certificate that is empty",
            answer: "`ngc: fault 302 certificate line 1`",
            place: None,
            mend: "If it is empty, `ngc certify > file` was refused: look at its message. Else look for another\n\
             file's name.",
        },
        Row {
            number: 303,
            rule: "A number of the certificate is out of its range, or a box is inside out: make it again with\n\
             `ngc certify`.",
            example: "`line 70000 0 0 0 3 0 0`",
            answer: "`ngc: fault 303 certificate line 4`",
            place: None,
            mend: "docs/FORMATS.md has the ranges.",
        },
        Row {
            number: 304,
            rule: "This move leaves the travel or hits a fixture, or is too close to tell with this many cuts:\n\
             `ngc report` says which.\n\
             It can also be a tool change or the start point that isn't clear of a fixture.",
            example: "command `ngc certify`, program `G0 X301`, `M2`",
            answer: "`ngc: fault 304 setting off command 0`",
            place: None,
            mend: "Change the path, or set more `--cuts` for a long slanted line or an arc. In `ngc list` the\n\
             second number of the command is the line of the program.",
        },
        Row {
            number: 311,
            rule: "The program itself has a fault: look up the second number of the message.\n\
             It must be correct at both settings of block delete.",
            example: "program `/G1 X1`, `M2`",
            answer: "`ngc: fault 311 setting off fault 252 line 1`",
            place: None,
            mend: "In the example that is 252 in line 1. With `setting on` the lines that begin with `/` are left\n\
             out. The status is 3.",
        },
        Row {
            number: 312,
            rule: "The certificate has other motions than the program: make it again with `ngc certify`.",
            example: "program `G0 X0.03`, `X0`, `M2`",
            answer: "`ngc: fault 312 setting off command 1`",
            place: None,
            mend: "Look for a program that was changed since, or for the certificate of another one.",
        },
        Row {
            number: 313,
            rule: "The pieces of this motion don't fit together: make the certificate again with `ngc certify`.\n\
             They follow each other up to its end; each piece of an arc turns by at most a quarter, within\n\
             one quadrant.",
            example: "`line 32768 0 0 0 3 0 0`",
            answer: "`ngc: fault 313 setting off command 0 piece 0`",
            place: None,
            mend: "Look for a program or a certificate that was changed since.",
        },
        Row {
            number: 314,
            rule: "A box of the certificate is too small for its motion: make the certificate again with\n\
             `ngc certify`.\n\
             The box of a piece holds all positions that the piece may take.",
            example: "`line 65536 0 0 0 2 0 0`",
            answer: "`ngc: fault 314 setting off command 0 piece 0`",
            place: None,
            mend: "Look for a program, a machine file or a tool table that was changed since.",
        },
        Row {
            number: 315,
            rule: "This motion or its box leaves the travel: change the path, or make the certificate again with\n\
             `ngc certify`.",
            example: "`line 65536 -1 0 0 3 0 0`",
            answer: "`ngc: fault 315 setting off command 0 piece 0`",
            place: None,
            mend: "`ngc report` says how far the program goes beyond the travel, and on which line.",
        },
        Row {
            number: 316,
            rule: "The tool meets a fixture on this motion, or the motion's box is too large: change the path, or\n\
             make the certificate again.\n\
             Over the box the body of the mounted tool must be clear of every fixture.",
            example: "machine file with FIXTURE",
            answer: "`ngc: fault 316 setting off command 0 piece 0 fixture 0`",
            place: None,
            mend: "docs/CHECKING.md says how to read the message. `ngc report` has the line of the program, and the\n\
             fixture with its corners.",
        },
        Row {
            number: 317,
            rule: "The new tool meets a fixture where it is mounted: change the tool at another position.",
            example: "program `T1 M6`, `M2`, tool table with TOOL, machine file with VISE, certificate\n\
             without motions",
            answer: "`ngc: fault 317 setting off command 0 fixture 0`",
            place: None,
            mend: "Write a traverse to a clear position before the `M6`, which moves no axis.",
        },
        Row {
            number: 318,
            rule: "The start point is inside a fixture: correct `start` or the fixture in the machine file.",
            example: "program `M2`, machine file with BLOCK, certificate without motions",
            answer: "`ngc: fault 318 fixture 0`",
            place: None,
            mend: "Only the spindle nose is tested there, as a single point, since no tool is mounted yet.",
        },
        Row {
            number: 319,
            rule: "This traverse has several pieces, and the control may take any way to its end: make the\n\
             certificate again with `ngc certify`.\n\
             With free rapids a traverse has one piece, whose box holds every way.",
            example: "program `G0 X0.03`, `M2`, machine file with `rapids = \"free\"`, certificate with two\n\
             pieces",
            answer: "`ngc: fault 319 setting off command 0`",
            place: None,
            mend: "It was made for `--rapids straight`. If one piece isn't clear, retract first and then move.",
        },
    ];
    ROWS
}
