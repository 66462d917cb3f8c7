// review POINT.. < FILE: reviews the claim that these points are a side which holds down the flow in the file.
#![tactic(auto)]

use anyhow::anyhow;
use claims::{Stop, review};
use scheme::Refusal;
use scheme_file::MOST_BYTES;
use std::env;
use std::io::Read;
use std::process::ExitCode;

// One byte more than a scheme file may have: past that the answer is known.
const ENOUGH_BYTES: u64 = MOST_BYTES as u64 + 1;

// A claim that is not accepted ends the program with status 1.
fn main(rt: HostRuntime) -> anyhow::Result<ExitCode> {
    let heap = rt.alloc();
    let side = side_of_arguments(&rt)?;
    let mut bytes = Vec::new(heap);
    rt.stdin().take(ENOUGH_BYTES).read_to_end(&mut bytes)?;
    match review(heap, bytes.as_mut_slice(), side.as_slice()) {
        // as texts, of which every byte is proved: what `Display` writes before it fails is not
        Ok(claim) => {
            rt.println(claim.lines(heap)?)?;
            Ok(ExitCode::SUCCESS)
        }
        Err(Stop::Refused(fault)) => {
            rt.println(Refusal::from(fault).line(heap)?)?;
            Ok(ExitCode::FAILURE)
        }
        Err(Stop::Memory) => Err(anyhow!("no memory")),
    }
}

fn side_of_arguments(rt: &HostRuntime) -> anyhow::Result<Vec<u16>> {
    env::args(rt)?
        .skip(1)
        .map(|word| {
            word.as_str().parse().map_err(|_| {
                anyhow!("usage: review POINT.. < FILE, each point a number from 0 to 65535")
            })
        })
        .try_collect(rt.alloc())
}
