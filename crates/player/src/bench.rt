// Measures what commands and power-ups cost, and prints a table.
use days::{Cost, Fault, Kind, Measured};
use std::time::Instant;

const SIZES: [u64; 4] = [256, 4096, 65_536, 1_048_576];

const MICROS: u64 = 1_000_000;

// A fault is told, and ends the measuring.
fn told<T: Drop>(rt: &HostRuntime, res: Result<T, Fault>) -> anyhow::Result<T> {
    if let Err(fault) = &res {
        eprintln!(rt; "player: {fault}")?;
    }
    Ok(res?)
}

// Tenths of acts for each command.
fn tenths(acts: u64, commands: u64) -> u64 {
    acts.saturating_mul(10) / commands.max(1)
}

// One line: acts for each command, and commands a second.
fn line(
    rt: &HostRuntime,
    pages: u64,
    what: &str,
    cost: &Cost,
    start: Instant,
) -> anyhow::Result<()> {
    // A time of more microseconds than there are numbers counts as a second.
    let micros = u64::try_from(start.elapsed(rt)?.as_micros())
        .unwrap_or(MICROS)
        .max(1);
    let rate = cost.commands.saturating_mul(MICROS) / micros;
    let reads = tenths(cost.acts.reads, cost.commands);
    let writes = tenths(cost.acts.writes, cost.commands);
    let flushes = tenths(cost.acts.flushes, cost.commands);
    let (commands, done) = (cost.commands, cost.done);
    print!(rt; "{pages:>8}  {what:<9} {commands:>5} {done:>5}")?;
    for acts in [reads, writes, flushes] {
        let whole = acts / 10;
        let tenth = acts % 10;
        print!(rt; " {whole:>7}.{tenth}")?;
    }
    println!(rt; " {rate:>10}")?;
    Ok(())
}

// Does what is measured, and prints its line.
fn measured<F: FnOnce() -> Result<Cost, Fault>>(
    rt: &HostRuntime,
    pages: u64,
    what: &str,
    run: F,
) -> anyhow::Result<()>
    requires { F.IsAlwaysCallable run }
{
    let start = Instant::now(rt)?;
    let cost = told(rt, run())?;
    line(rt, pages, what, &cost, start)
}

// A house of one size: a power-up, commands of three kinds, and a power-up after them.
fn size(rt: &HostRuntime, pages: u64) -> anyhow::Result<()> {
    let mut house = told(rt, Measured::new(rt.alloc(), pages))?;
    measured(rt, pages, "power", || house.power())?;
    for kind in [Kind::Join, Kind::NewBox, Kind::Boxes] {
        let what = format!(in rt.alloc(); "{kind}")?;
        measured(rt, pages, what.as_str(), || house.series(kind))?;
    }
    measured(rt, pages, "power", || house.power())
}

// The table, a house of each size after another.
pub fn print(rt: &HostRuntime) -> anyhow::Result<()> {
    println!(rt; "   pages  what      count  done     reads    writes   flushes   a second")?;
    for pages in SIZES {
        size(rt, pages)?;
    }
    Ok(())
}
