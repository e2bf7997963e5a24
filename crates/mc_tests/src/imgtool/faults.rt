//! The engines over readers and writers that move one byte a call, and fail at each call in turn.
use super::Engine;
use crate::common::same_at;
use mc_fixtures::{
    COUNTED_IMAGE, FAULTS, FailingReader, FailingWriter, Failure, Fault, GOOD_LINE, PAYLOAD,
    PLAIN_IMAGE, REPORT,
};
use mc_imgtool::ToolError;
use std::alloc::Global;
use std::process::Abort;

static ENGINES: [Engine; 3] = [Engine::Create, Engine::Verify, Engine::Dumpinfo];

/// An input of an engine, and what is written for it.
fn texts_of(engine: Engine) -> (&'static [u8], &'static [u8]) {
    match engine {
        Engine::Create => (&PAYLOAD, &PLAIN_IMAGE),
        Engine::Verify => (&PLAIN_IMAGE, GOOD_LINE.as_bytes()),
        Engine::Dumpinfo => (&COUNTED_IMAGE, REPORT.as_bytes()),
    }
}

/// How an engine ends on an input of so many bytes, with a text of so many, and how many of these it has written.
fn end_of(
    input: usize,
    text: usize,
    reads: Failure,
    writes: Failure,
) -> (Result<(), ToolError>, usize) {
    if reads.calls <= input {
        (Err(ToolError::Read), 0)
    } else if writes.calls < text {
        (Err(ToolError::Write), writes.calls)
    } else {
        (Ok(()), text)
    }
}

/// Looks how an engine ends where its reader fails so, or else its writer, and that it has written the beginning of its text. The
/// last call of a reader finds the end.
fn ends(rt: &impl Abort, alloc: Global, engine: Engine, reads: Failure, writes: Failure) {
    let (input, text) = texts_of(engine);
    let mut reader = FailingReader {
        left: input,
        failure: reads,
    };
    let mut writer = FailingWriter {
        taken: Vec::with_capacity(alloc, text.len()).expect(rt, "memory"),
        failure: writes,
    };
    let shown = engine.run(rt, alloc, &mut reader, &mut writer);
    let (wanted, count) = end_of(input.len(), text.len(), reads, writes);
    let found = (shown, Some(writer.taken.as_slice()));
    same_at(rt, &(reads, writes), &found, &(wanted, text.get(..count)))
}

/// A reader or a writer that never fails.
static NEVER: Failure = Failure {
    calls: usize::MAX,
    fault: Fault::Error,
    lasts: false,
};

/// A failed read writes nothing.
#[test]
fn engines_meet_failing_reads(rt: HostRuntime) {
    for engine in ENGINES {
        for calls in 0..=texts_of(engine).0.len() {
            for (fault, lasts) in &FAULTS[..4] {
                let failure = Failure {
                    calls,
                    fault: *fault,
                    lasts: *lasts,
                };
                ends(&rt, rt.alloc(), engine, failure, NEVER);
            }
        }
    }
}

/// A failed write leaves a prefix.
#[test]
fn engines_meet_failing_writes(rt: HostRuntime) {
    for engine in ENGINES {
        for calls in 0..=texts_of(engine).1.len() {
            for (fault, lasts) in FAULTS {
                let failure = Failure {
                    calls,
                    fault,
                    lasts,
                };
                ends(&rt, rt.alloc(), engine, NEVER, failure);
            }
        }
    }
}
