//! Each growth of memory is refused in turn: the result is 900 with nothing written, and the wanted
//! result when there is enough memory.
use crate::checks::{holds, same};
use crate::given::{End, Job, NO_MOTIONS, Shop};
use bumpalo::Bump;
use ngc_simulator::{Machine, Tools};
use ngc_test_devices::{MACHINE, TOOLS};
use ngc_text::Device;
use std::alloc::Global;
use std::process::Abort;
use std::test::Fail;

// The end of a job, and its output.
type Found = (End, Vec<u8>);

fn found_with(alloc: Global, text: &str, shop: &Shop<Global>, job: Job<'_>) -> Found {
    let mut output = Device::new(Vec::new(alloc));
    let end = job.attempt(alloc, text, shop, &mut output);
    (end, output.into_inner())
}

// Returns the same with the memory of an arena.
fn found_in(bump: &Bump, alloc: Global, text: &str, shop: &Shop<Global>, job: Job<'_>) -> Found {
    let mut output = Device::new(Vec::new(alloc));
    let end = match (shop.machine.copy(bump), shop.tools.copy(bump)) {
        (Ok(machine), Ok(tools)) => {
            job.attempt(bump, text, &Shop { machine, tools }, &mut output)
        }
        _ => Err(900),
    };
    (end, output.into_inner())
}

// Returns whether the result isn't lack of memory. Then it is the wanted one; otherwise nothing is
// written.
fn is_answered(rt: &impl Abort, row: &(&str, Job<'_>), found: &Found, wanted: &Found) -> bool {
    if found.0 == Err(900) {
        holds(rt, row, found.1.as_slice().is_empty());
        return false;
    }
    same(rt, row, &found.0, &wanted.0);
    same(rt, row, &found.1.as_slice(), &wanted.1.as_slice());
    true
}

const ARENA: usize = 524_288;

// Returns whether `bytes` bytes of an arena suffice. An arena takes back only what it returned
// last. With enough bytes the job is done, and all memory is returned afterwards.
fn do_bytes_suffice(
    rt: &impl Abort,
    alloc: Global,
    shop: &Shop<Global>,
    row: (&str, Job<'_>),
    wanted: &Found,
    bytes: usize,
) -> Result<bool, Fail> {
    let (text, job) = row;
    let mut bump = Bump::try_with_capacity(alloc, ARENA)?;
    let taken = bump.chunk_capacity().saturating_sub(bytes);
    let filler = Vec::<u8, _>::with_capacity(&bump, taken)?;
    bump.set_allocation_limit(Some(0));
    let suffice = is_answered(rt, &row, &found_in(&bump, alloc, text, shop, job), wanted);
    if !suffice {
        bump.set_allocation_limit(None);
        let found = found_in(&bump, alloc, text, shop, job);
        holds(rt, &row, is_answered(rt, &row, &found, wanted));
    }
    drop(filler);
    holds(rt, &row, bump.reset().is_ok());
    Ok(suffice)
}

fn refused_in_turn(
    rt: &impl Abort,
    alloc: Global,
    shop: &Shop<Global>,
    row: (&str, Job<'_>),
) -> Result<(), Fail> {
    let wanted = found_with(alloc, row.0, shop, row.1);
    for count in 0..ARENA / 16 {
        if do_bytes_suffice(rt, alloc, shop, row, &wanted, 16 * count)? {
            holds(rt, &row, count > 0);
            return Ok(());
        }
    }
    holds(rt, &("not done", row), false);
    Ok(())
}

const POST: &str = "[[fixture]]
low = [38000000, 48000000, -50000000]
high = [42000000, 52000000, 10000000]
";

const BLOCK: &str = "[[fixture]]
low = [-20000000, -10000000, -100000000]
high = [-2000000, 10000000, -30000000]
";

// The programs that are listed.
const LISTED: &[&str] = &[
    "#3=15\n#3=6 G0 X#3\nX#3\nM2\n",
    "G91 G81 X1 Z-2 R-1 F60\nM2\n",
];

// Fixtures, a program that is certified and checked, and the events of its run. No certificate is
// found for the longer tool.
const CERTIFIED: &[(&str, &str, &[u8])] = &[
    (BLOCK, "T1 M6\nM2\n", b""),
    (BLOCK, "T2 M6\nM2\n", b""),
    (POST, "G0 X10 Y50\nG2 X10 Y50 I30 J0 F600\nM2\n", b""),
    (
        "",
        "G0 X0.03\nM2\n",
        b"load\nload\nload\noverride 201\ntick 111\n",
    ),
];

fn shop_with(alloc: Global, fixtures: &str) -> Result<Shop<Global>, Fail> {
    let machine = format!(in alloc; "{MACHINE}{fixtures}")?;
    Ok(Shop {
        machine: Machine::read(alloc, machine.as_bytes())?,
        tools: Tools::read(alloc, TOOLS.as_bytes())?,
    })
}

#[test]
fn growths_refused_in_turn(rt: HostRuntime) -> Result<(), Fail> {
    for text in LISTED {
        let shop = shop_with(rt.alloc(), "")?;
        refused_in_turn(&rt, rt.alloc(), &shop, (*text, Job::List))?;
    }
    for (fixtures, text, events) in CERTIFIED {
        let shop = shop_with(rt.alloc(), fixtures)?;
        let (end, made) = found_with(rt.alloc(), text, &shop, Job::Certify);
        let certificate = match end {
            Ok(()) => made.as_slice(),
            Err(_) => NO_MOTIONS,
        };
        refused_in_turn(&rt, rt.alloc(), &shop, (*text, Job::Certify))?;
        refused_in_turn(&rt, rt.alloc(), &shop, (*text, Job::Check(certificate)))?;
        if !events.is_empty() {
            let run = Job::Run(certificate, events);
            refused_in_turn(&rt, rt.alloc(), &shop, (*text, run))?;
        }
    }
    Ok(())
}
