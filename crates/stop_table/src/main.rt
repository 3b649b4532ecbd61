//! Stops and fails each call of a run, one by one: after each stop what a crash leaves is opened again, and that opening is stopped
//! at each of its own calls too. It tells whether each ledger that was opened has every journal of which a receipt was written; how
//! many stops, images and faults there were is written to standard error.
#![tactic(auto)]

mod faults;
mod holding;
mod running;
mod script;
mod stops;

use anyhow::Result;
use faults::{Failing, fail_each};
use running::Side;
use stops::{Counts, stop_each};

fn main(rt: HostRuntime) -> Result<()> {
    let mut counts = Counts {
        stops: 0,
        images: 0,
        openings: 0,
    };
    for side in [Side::A, Side::B] {
        stop_each(&rt, rt.alloc(), side, &mut counts)?;
    }
    eprintln!(rt;
        "{} stops, {} images, {} stopped openings",
        counts.stops, counts.images, counts.openings
    )?;
    for failing in [
        Failing::Read,
        Failing::Write,
        Failing::DiskA,
        Failing::DiskB,
        Failing::Stamp,
    ] {
        let count = fail_each(&rt, rt.alloc(), failing)?;
        eprintln!(rt; "{failing:?}: {count} calls failed")?;
    }
    println!(rt; "each receipt was held")?;
    Ok(())
}
