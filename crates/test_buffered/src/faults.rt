//! A reader that fails in the middle.

use crate::devices::Pieces;
use crate::script::{Call, Step, plays};
use cbor_buffered::BufferedRead;
use std::alloc::Global;
use std::io::ErrorKind;
use std::process::Abort;
use test_checks::Verdict;

const KINDS: [ErrorKind; 3] = [
    ErrorKind::BrokenPipe,
    ErrorKind::UnexpectedEof,
    ErrorKind::Interrupted,
];

// Three bytes come before the fault, and the others after it.
fn fails(rt: &impl Abort, alloc: Global, kind: ErrorKind, script: &[Step]) -> Verdict {
    let reader = Pieces::failing(b"abcdef", 3, 2, kind);
    plays(rt, alloc, &mut BufferedRead::new(alloc, reader)?, script)
}

// An interruption is reported as any fault, and not tried again.
#[test]
fn reports_a_fault_after_what_came_before_it(rt: HostRuntime) -> Verdict {
    for kind in KINDS {
        let script = [
            Step::Read(b"abc"),
            Step::Fails(Call::Peek, kind),
            Step::At(3),
            Step::Read(b"def"),
            Step::Next(None),
        ];
        fails(&rt, rt.alloc(), kind, &script)?;
    }
    Ok(())
}

#[test]
fn reports_a_fault_within_a_part(rt: HostRuntime) -> Verdict {
    for kind in KINDS {
        for call in [
            Call::Read(4),
            Call::Skip(4),
            Call::SkipText(4),
            Call::ReadInto,
            Call::ReadToVec(4),
        ] {
            let script = [Step::Fails(call, kind), Step::At(3)];
            fails(&rt, rt.alloc(), kind, &script)?;
        }
    }
    Ok(())
}

// It is kept until the bytes before it are taken, and is reported once.
#[test]
fn reports_a_fault_that_it_met_ahead(rt: HostRuntime) -> Verdict {
    for kind in KINDS {
        let script = [
            Step::Next(Some(b'a')),
            Step::Does(Call::Gather(4)),
            Step::Ahead(b"bc"),
            // no other call is made of the reader
            Step::Does(Call::Gather(4)),
            Step::Ahead(b"bc"),
            Step::Read(b"bc"),
            Step::Fails(Call::Next, kind),
            Step::At(3),
            Step::Read(b"def"),
            Step::Next(None),
        ];
        fails(&rt, rt.alloc(), kind, &script)?;
        let script = [
            Step::Next(Some(b'a')),
            Step::Does(Call::Gather(4)),
            Step::Fails(Call::ReadInto, kind),
            Step::At(3),
            Step::Read(b"def"),
        ];
        fails(&rt, rt.alloc(), kind, &script)?;
    }
    Ok(())
}
