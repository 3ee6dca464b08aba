//! Scenarios that are read while memory is refused.
//! Cited by no other file of crates/.

use crate::hoard::{BLOCKS, hoard_all};
use kt_scene::{WorkKind, read_scene};
use kt_script::{Actual, Slot};
use kt_tuple::MAX_PLACES;
use std::alloc::Global;
use std::process::Abort;
use std::test::Fail;

/// A whole text, and the line and the number of its fault; 0 and 0 is none.
type Text = (&'static [u8], usize, u8);

/// The fault of the text as line and number; 0 and 0 is none.
fn fault_of(alloc: Global, text: &[u8]) -> (usize, u8) {
    match read_scene(alloc, text, WorkKind::Steps) {
        Ok(_) => (0, 0),
        Err(fault) => (fault.line, fault.cause.number()),
    }
}

/// Texts, and the line and the number of their fault where no memory is left. Room for the places of a command is the
/// first that has to be made, behind the line of the worker.
const WITHOUT_MEMORY: [Text; 8] = [
    (b"", 1, 7),
    (b"linda-kt 2\n", 1, 1),
    (b"linda-kt 1\nshards x\n", 2, 1),
    (b"linda-kt 1\nshards 9\n", 2, 5),
    (b"linda-kt 1\nshards 1\n", 3, 7),
    (b"linda-kt 1\nshards 1\nsteps\n", 3, 2),
    (b"linda-kt 1\nshards 1\nworker", 3, 7),
    (b"linda-kt 1\nshards 1\nworker\nout (01)\n", 3, 8),
];

/// The same where memory is left for the places of one command alone. The first command and the first script that ends
/// are the first that have to be kept.
const WITH_ROOM_FOR_ONE: [Text; 13] = [
    (b"linda-kt 1\nshards 1\nworker\nend\n", 4, 2),
    (b"linda-kt 1\nshards 1\nworker\nout (01)\nout (1)\n", 4, 3),
    (b"linda-kt 1\nshards 1\nworker\nin (?int x, x)\n", 4, 4),
    (b"linda-kt 1\nshards 1\nworker\nunless 201\n", 4, 5),
    (b"linda-kt 1\nshards 1\nworker\nout (1)", 4, 7),
    (b"linda-kt 1\nshards 1\nworker\nworker", 4, 7),
    (b"linda-kt 1\nshards 1\nworker\n# a\n", 5, 7),
    (b"linda-kt 1\nshards 1\nworker\nout (1)\nsteps\nend\n", 4, 8),
    (b"linda-kt 1\nshards 1\nworker\nunless 1\nout (01)\n", 4, 8),
    (
        b"linda-kt 1\nshards 1\nworker\n# a\nin (?int x)\nout (y)\n",
        5,
        8,
    ),
    (b"linda-kt 1\nshards 1\nworker\nworker\nout\n", 4, 8),
    (b"linda-kt 1\nshards 1\nworker\nsteps\nissue w0\n", 4, 8),
    (b"linda-kt 1\nshards 1\nworker\nsteps\nend\n#", 4, 8),
];

fn have_faults(rt: &impl Abort, alloc: Global, texts: &[Text]) {
    for (text, line, number) in texts {
        assert_eq!(rt; fault_of(alloc, text), (*line, *number), "{text:?}");
    }
}

/// A line's other fault comes before want of memory.
#[test]
fn no_memory(rt: HostRuntime) -> Result<(), Fail> {
    let alloc = rt.alloc();
    let slots = Vec::<Slot>::with_capacity(alloc, MAX_PLACES)?;
    let actuals = Vec::<Actual>::with_capacity(alloc, MAX_PLACES)?;
    let mut hoard = Vec::with_capacity(alloc, BLOCKS)?;
    hoard_all(alloc, &mut hoard)?;
    have_faults(&rt, alloc, &WITHOUT_MEMORY);
    drop((slots, actuals));
    have_faults(&rt, alloc, &WITH_ROOM_FOR_ONE);
    Ok(())
}

/// Reads the text with a little more memory each time, until it answers as with much memory: this line and
/// number. Want of memory is answered on the 3rd line or a later one, not on the 5th, which is ignored, and
/// before the fault's. Answers on how many different lines.
fn refused_lines(
    rt: &impl Abort,
    alloc: Global,
    text: &[u8],
    expected: (usize, u8),
) -> Result<usize, Fail> {
    let mut spare = Vec::with_capacity(alloc, 4000)?;
    for _ in 0..4000usize {
        spare.push(Vec::<u8>::with_capacity(alloc, 160)?)?;
    }
    let mut hoard = Vec::with_capacity(alloc, BLOCKS)?;
    hoard_all(alloc, &mut hoard)?;
    let (mut lines, mut last) = (0usize, 0);
    for _ in 0..4000usize {
        let (line, number) = fault_of(alloc, text);
        if number != 8 {
            assert_eq!(rt; (line, number), expected);
            return Ok(lines);
        }
        let is_kept = 3 <= line && line != 5;
        let is_before = line < expected.0 || expected.1 == 0;
        assert!(rt; is_kept && is_before, "refused on line {line}");
        if line != last {
            lines = lines.saturating_add(1);
            last = line;
        }
        drop(spare.pop());
    }
    Err(Fail::from("never answered"))
}

/// With ever more memory a text is refused for want of it before its fault, and then for its fault.
#[test]
fn little_memory(rt: HostRuntime) -> Result<(), Fail> {
    let alloc = rt.alloc();
    let front = b"linda-kt 1\nshards 1\nworker\nout (1)\n# a\nworker\nin (?int x)\n".as_slice();
    for (lines, expected) in [
        (b"steps\nissue w1\nend\n".as_slice(), (0, 0)),
        (b"steps\nissue w1\nissue w0\n", (10, 2)),
        (b"out (y)\nsteps\n", (8, 4)),
        (b"steps\nissue w1\n", (10, 7)),
    ] {
        let mut text = Vec::new(alloc);
        text.extend_from_slice(front)?;
        text.extend_from_slice(lines)?;
        let refused = refused_lines(&rt, alloc, &text, expected)?;
        assert!(rt; refused >= 2, "refused on {refused} lines");
    }
    Ok(())
}
