//! The program `capt`: packet captures, read, reported, compared, converted, merged and joined by proved code.
#![tactic(auto)]

use cap_tool::{ReservedStdio, StandardStreams, run};
use std::process::ExitCode;

fn main(rt: HostRuntime) -> ExitCode {
    let streams = StandardStreams {
        input: rt.stdin(),
        output: rt.stdout(),
        faults: rt.stderr(),
    };
    let closed = ReservedStdio::find(&rt, streams.input, streams.output, streams.faults);
    ExitCode::from(run(&rt, streams, closed.has_no_input()))
}
