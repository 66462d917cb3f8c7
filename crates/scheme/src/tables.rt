// A book of struct rows, which takes any numbers.
ghost use Rattle.std.specs.Prelude.{◌≡◌};
ghost use Rattle.std.specs.List.{slice_get};
ghost use Rattle.scheme.specs.Tables.{table_scheme};

use crate::faults::BookFault;
use crate::registers::{Book, Register};
use crate::rows::Reach;

#[derive(Drop)]
pub struct Table {
    points: u16,
    inlet: u16,
    outlet: u16,
    rows: Vec<Reach>,
}

impl Table {
    pub fn new(points: u16, inlet: u16, outlet: u16, rows: Vec<Reach>) -> Table
        ensures { table_scheme result ≡ record { points = points; inlet = inlet; outlet = outlet; reaches = rows.items } }
    {
        Table {
            points,
            inlet,
            outlet,
            rows,
        }
    }

    // Gives the rows back.
    pub fn into_rows(self) -> Vec<Reach>
        ensures { result.items ≡ (table_scheme self).reaches }
    {
        let Table {
            points: _,
            inlet: _,
            outlet: _,
            rows,
        } = self;
        rows
    }

    fn row(&self, reach: usize) -> Option<Reach>
        ensures { result ≡ slice_get (table_scheme self.now).reaches reach }
    {
        self.rows.get(reach).copied()
    }
}

impl Register for Table {
    ghost scheme = { table_scheme };

    fn points(&self) -> u16 {
        self.points
    }

    fn inlet(&self) -> u16 {
        self.inlet
    }

    fn outlet(&self) -> u16 {
        self.outlet
    }

    fn reaches(&self) -> usize {
        self.rows.len()
    }

    fn tail(&self, reach: usize) -> Option<u16> {
        Some(self.row(reach)?.tail)
    }

    fn head(&self, reach: usize) -> Option<u16> {
        Some(self.row(reach)?.head)
    }

    fn limit(&self, reach: usize) -> Option<u32> {
        Some(self.row(reach)?.limit)
    }

    fn flow(&self, reach: usize) -> Option<u32> {
        Some(self.row(reach)?.flow)
    }
}

// The two writes differ in the field: a method for both would hand out a borrow of the row, and need a clause on what comes
// back through it.
impl Book for Table {
    fn set_limit(&mut self, reach: usize, limit: u32) -> Result<(), BookFault> {
        let row = self.rows.get_mut(reach).ok_or(BookFault::NoReach(reach))?;
        row.limit = limit;
        Ok(())
    }

    fn set_flow(&mut self, reach: usize, flow: u32) -> Result<(), BookFault> {
        let row = self.rows.get_mut(reach).ok_or(BookFault::NoReach(reach))?;
        row.flow = flow;
        Ok(())
    }
}
