//! A first program that writes a history down while it goes on: an office is cut twice, and each part is written behind the one before.
#![tactic(auto)]

ghost use Rattle.std.specs.Prelude.{◌≡◌, false, OnOk};
ghost use Rattle.market_types.specs.Commands.{moves_seat};

use anyhow::{Result, bail};
use byte_devices::{Sink, WriteSink};
use journal_replay::{Extent, Header, write_header, write_part};
use market_lock::Office;
use market_types::{Cmd, Level, Opening};
use office_crew::Scribe;
use std::alloc::Global;
use std::sync::Wait;

fn main(rt: HostRuntime) -> Result<()> {
    let alloc = rt.alloc();
    let output = &mut WriteSink::new(rt.stdout());
    let header = Header {
        opening: Opening::new(8, 64, 1, 3),
        extent: Extent::Limited,
    };
    write_header(alloc, header, output)?;
    // Base 8 (seven workers), hard limit 64, one seat, room for a hundred calls between two cuts, three levels.
    let (office, passes) = Office::open_in_parts(alloc, 8, 64, 1, 100, 3)?;
    let mut passes = passes;
    let Some(pass) = passes.pop() else {
        unreachable!()
    };
    let mut scribe = Scribe::new(pass);
    let written = write_two(&rt, alloc, &office, &mut scribe, output);
    passes.push_reserved(scribe.into_pass());
    drop(office.close(passes, Vec::new(alloc)));
    written
}

/// Two calls, written in two parts.
fn write_two<R: Wait, W: Sink>(
    rt: &R,
    alloc: Global,
    office: &Office,
    scribe: &mut Scribe,
    output: &mut W,
) -> Result<()>
    requires office { scribe.old.pass.table ≡ office.now.table }
    requires working { W.failed output.old ≡ false }
    ensures same { scribe.new.pass.table ≡ office.now.table }
{
    let open = Cmd::Open(8, 1, Level::from_index(1));
    write_next(rt, alloc, office, scribe, open, output)?;
    write_next(rt, alloc, office, scribe, Cmd::Limit, output)
}

/// The scribe makes a call, takes out what was kept since its last cut, and writes it.
fn write_next<R: Wait, W: Sink>(
    rt: &R,
    alloc: Global,
    office: &Office,
    scribe: &mut Scribe,
    cmd: Cmd,
    output: &mut W,
) -> Result<()>
    requires office { scribe.old.pass.table ≡ office.now.table }
    requires still { moves_seat cmd ≡ false }
    requires working { W.failed output.old ≡ false }
    ensures same { scribe.new.pass.table ≡ office.now.table }
    ensures working { OnOk result (W.failed output.new ≡ false) }
{
    drop(scribe.call(rt, alloc, office, cmd)?);
    // Room for an entry of each seat: the vector comes in place of the office's own.
    let spare = Vec::with_capacity(alloc, 1)?;
    let Ok(part) = scribe.cut(rt, office, spare) else {
        bail!("there is no part");
    };
    write_part(alloc, 3, &part, output)?;
    Ok(())
}
