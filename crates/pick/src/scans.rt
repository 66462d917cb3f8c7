// A pick that looks through all its keys.
ghost use Rattle.std.specs.Prelude.{◌≡◌, ◌≤◌, length};
ghost use Rattle.scheme.specs.Bounds.{most_points};
ghost use Rattle.pick.specs.Calls.{fresh, started};
ghost use Rattle.pick.specs.Keys.{key_of};
ghost use Rattle.pick.specs.Scans.{Best};

use crate::picks::{Pick, SIZE, fitting, raised};
use scheme::PickFault;
use std::cmp::Reverse;

#[derive(Drop)]
pub struct Scan {
    // the key of each point that is outside
    keys: [Option<u64>; SIZE],
    ghost full: { length keys ≡ most_points },
}

impl Scan {
    pub fn new() -> Scan
        ensures { result.keys ≡ fresh most_points }
    {
        Scan { keys: [None; SIZE] }
    }

    fn key(&self, point: u16) -> Option<u64>
        ensures { result ≡ key_of self.now.keys point }
    {
        *self.keys.get(usize::from(point))?
    }

    // The best of all points: an outside one with the greatest key, the first of equal ones.
    fn greatest(&self) -> Option<(usize, u64)>
        ensures { Best self.now.keys result }
    {
        let (point, key) = self
            .keys
            .iter()
            .enumerate()
            .min_by_key(|(_, key)| rank(**key))?;
        Some((point, (*key)?))
    }
}

// The better a key, the less its rank: the greatest key comes first, and that of a point inside last.
fn rank(key: Option<u64>) -> Reverse<Option<u64>>
    ensures { result.0 ≡ key }
{
    Reverse(key)
}

// Puts exactly the first `points` outside, with key 0. (In place: a fresh table in its stead would be copied whole.)
fn restart(keys: &mut [Option<u64>], points: usize)
    requires { points ≤ length keys.old }
    ensures { keys.new ≡ started (length keys.old) points }
{
    let (outside, inside) = keys.split_at_mut(points);
    outside.fill(Some(0));
    inside.fill(None);
}

impl Pick for Scan {
    ghost held = { λ s. s.keys };

    fn start(&mut self, points: u16) -> Result<(), PickFault> {
        let points = fitting(points)?;
        restart(&mut self.keys, points);
        Ok(())
    }

    fn raise(&mut self, point: u16, by: u64) -> Result<(), PickFault> {
        let key = self.key(point).ok_or(PickFault::Inside(point))?;
        let raised = raised(key, by).ok_or(PickFault::KeyTooGreat(point))?;
        self.keys[usize::from(point)] = Some(raised);
        Ok(())
    }

    fn take(&mut self) -> Option<(u16, u64)> {
        let (point, key) = self.greatest()?;
        self.keys[point] = None;
        Some((point as u16, key))
    }
}
