//! A sink, and engines that work a script.
ghost use Rattle.std.specs.Prelude.{◌≡◌, false};

use byte_devices::{Sink, Source, TestSink};
use market_prog::{RunFault, explain_script, run_journal, run_script};
use market_types::Opening;
use market_words::ScriptTask;
use std::alloc::Global;
use std::process::Abort;

/// A sink with room for 4,096 bytes.
pub(crate) fn new_sink(rt: &impl Abort, alloc: Global) -> TestSink
    ensures { result.failed ≡ false }
{
    let Ok(memory) = Vec::with_capacity(alloc, 4096) else {
        panic!(rt; "no memory");
    };
    TestSink::new(memory)
}

/// Works the script that a source has, of a market of these options.
pub(crate) fn work_script<R: Source, W: Sink>(
    alloc: Global,
    task: ScriptTask,
    options: Opening,
    source: &mut R,
    sink: &mut W,
) -> Result<u64, RunFault>
    requires source_working { R.failed source.old ≡ false }
    requires source_begins { R.ended source.old ≡ false }
    requires sink_working { W.failed sink.old ≡ false }
{
    match task {
        ScriptTask::Answer => run_script(alloc, options, source, sink),
        ScriptTask::Journal => run_journal(alloc, options, source, sink),
        ScriptTask::Explain => explain_script(alloc, options, source, sink),
    }
}
