// The schemes that tests of several crates go by, as rows and as bytes.
#![tactic(auto)]

ghost use Rattle.std.specs.Prelude.{◌≡◌, map, IfOk, replicate};
ghost use Rattle.scheme.specs.Tables.{table_scheme};
ghost use Rattle.worked_examples.specs.Dry.{dry_reach, dry_twin};

use scheme::{Reach, Table};
use std::alloc::{AllocError, Global};

#[cfg(test)]
mod tests;

// A reach that carries nothing: tail, head and limit.
pub type Dry = (u16, u16, u32);

// Four points, inlet 0, outlet 3.
pub const EXAMPLE: [Dry; 5] = [(0, 1, 5), (0, 2, 4), (1, 2, 3), (1, 3, 2), (2, 3, 6)];

// The most that may pass each of its points, for a junction over it.
pub const GATE_LIMITS: [u32; 4] = [9, 9, 5, 9];

// The same as a scheme file, a line each for the header and the body of the head, for the header of the rows, and
// for each row.
pub const EXAMPLE_FILE: &[u8; 78] = b"\
    \x06\0\0\0\x01\0\
    \x04\0\0\0\x03\0\
    \x3c\0\0\0\x02\0\
    \0\0\x01\0\x05\0\0\0\0\0\0\0\
    \0\0\x02\0\x04\0\0\0\0\0\0\0\
    \x01\0\x02\0\x03\0\0\0\0\0\0\0\
    \x01\0\x03\0\x02\0\0\0\0\0\0\0\
    \x02\0\x03\0\x06\0\0\0\0\0\0\0\
";

// A table of these reaches, which nothing flows along.
pub fn table(
    heap: Global,
    points: u16,
    inlet: u16,
    outlet: u16,
    reaches: &[Dry],
) -> Result<Table, AllocError>
    ensures { IfOk result (λ t. table_scheme t
        ≡ record { points = points; inlet = inlet; outlet = outlet; reaches = map dry_reach reaches.now }) }
{
    let rows = reaches
        .iter()
        .map(|(tail, head, limit)| Reach {
            tail: *tail,
            head: *head,
            limit: *limit,
            flow: 0,
        })
        .collect(heap)?;
    Ok(Table::new(points, inlet, outlet, rows))
}

pub fn example(heap: Global) -> Result<Table, AllocError>
    ensures { IfOk result (λ t. table_scheme t
        ≡ record { points = 4; inlet = 0; outlet = 3; reaches = map dry_reach EXAMPLE }) }
{
    table(heap, 4, 0, 3, &EXAMPLE)
}

// Two points and as many twin reaches as are asked for.
pub fn twins(heap: Global, reaches: usize) -> Result<Table, AllocError>
    ensures { IfOk result (λ t. table_scheme t
        ≡ record { points = 2; inlet = 0; outlet = 1; reaches = replicate reaches dry_twin }) }
{
    let twin = Reach {
        tail: 0,
        head: 1,
        limit: 1,
        flow: 0,
    };
    Ok(Table::new(2, 0, 1, vec![in heap; twin; reaches]?))
}
